// Small problems as plain data: slots, and sheets with what they are given by. Nothing here knows how binders work.
use catalogue::make::Make;
use samples::draft::Draft;
use std::alloc::{AllocError, Global};

// What an option weighs at a position.
#[derive(Clone, Copy)]
pub struct Weight {
    pub position: u8,
    pub option: u8,
    pub amount: i16,
}

#[derive(Drop)]
pub struct Sheet {
    pub make: Make,
    pub scope: Vec<u8>,
    pub rows: Vec<[u8; 8]>,
    pub weights: Vec<Weight>,
    pub cap: i32,
}

#[derive(Drop)]
pub struct Model {
    pub sizes: Vec<u8>,
    pub sheets: Vec<Sheet>,
}

impl Sheet {
    pub fn new(heap: Global, make: Make, cap: i32) -> Sheet {
        Sheet {
            make,
            scope: Vec::new(heap),
            rows: Vec::new(heap),
            weights: Vec::new(heap),
            cap,
        }
    }

    fn is_row(&self, list: &[u8; 8]) -> bool {
        let length = self.scope.len();
        self.rows.iter().any(|row| row.iter().zip(list).take(length).all(|(a, b)| a == b))
    }

    // What an option weighs at a position; 0 where no weight is given.
    fn weight(&self, position: usize, option: u8) -> i32 {
        for weight in &self.weights {
            if weight.position as usize == position && weight.option == option {
                return i32::from(weight.amount);
            }
        }
        0
    }

    fn total(&self, list: &[u8; 8]) -> i32 {
        let mut sum = 0i32;
        for (position, option) in list.iter().enumerate().take(self.scope.len()) {
            sum = sum.wrapping_add(self.weight(position, *option));
        }
        sum
    }

    // Whether the rule admits a list: its options are the first ones, one for each position of the scope.
    pub fn admits(&self, list: &[u8; 8]) -> bool {
        match self.make {
            Make::Fit => self.is_row(list),
            Make::Bar => !self.is_row(list),
            Make::Load => self.total(list) <= self.cap,
        }
    }

    // The sheet as the end of a catalogue.
    fn write(&self, draft: Draft) -> Result<Draft, AllocError> {
        let scope = self.scope.as_slice();
        let mut draft = match self.make {
            Make::Fit => draft.fit(scope)?,
            Make::Bar => draft.bar(scope)?,
            Make::Load => draft.load(scope, self.cap)?,
        };
        for row in &self.rows {
            draft = draft.row(&row[..scope.len().min(8)])?;
        }
        for weight in &self.weights {
            draft = draft.weight(weight.position, weight.option, weight.amount)?;
        }
        Ok(draft)
    }
}

impl Model {
    pub fn new(heap: Global) -> Model {
        Model {
            sizes: Vec::new(heap),
            sheets: Vec::new(heap),
        }
    }

    // Whether a sheet names a slot beyond the last.
    pub fn names_beyond(&self) -> bool {
        let slots = self.sizes.len();
        self.sheets.iter().any(|sheet| sheet.scope.iter().any(|slot| *slot as usize >= slots))
    }

    // The catalogue that says the same.
    pub fn file(&self, heap: Global) -> Result<Draft, AllocError> {
        let mut draft = Draft::new(heap);
        for size in &self.sizes {
            draft = draft.slot(*size)?;
        }
        for sheet in &self.sheets {
            draft = sheet.write(draft)?;
        }
        draft.end()
    }
}
