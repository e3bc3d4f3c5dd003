// Plain enumeration over a sheet's definition: which options of its scope some admitted list that fits a
// box holds. It knows nothing of how binders work.
use boxes::OptionBox;
use catalogue::kind::Kind;
use catalogue::make::Make;
use catalogue::view::View;

// How many options of a slot are looked at.
const OPTIONS: u8 = 4;

// How many lists there are: one option of four for each of three positions.
const LISTS: u8 = 64;

// An option for each position of a scope; a shorter scope takes the first ones.
type List = [u8; 3];

// A list by its number, whose digits to the base four are the options.
fn list_of(number: u8) -> List {
    [number % 4, number / 4 % 4, number / 16 % 4]
}

// A sheet as the catalogue shows it.
#[derive(Clone, Copy)]
pub struct Sheet<'a> {
    pub make: Make,
    pub view: View<'a>,
}

impl<'a> Sheet<'a> {
    fn has_row(&self, list: &List) -> bool {
        let arity = self.view.scope.len();
        self.view.entries.chunks(Kind::Row.len()).any(|row| {
            row.iter()
                .skip(1)
                .zip(list)
                .take(arity)
                .all(|(held, option)| held == option)
        })
    }

    // What an option weighs at a position; 0 where no weight is given.
    fn weight_of(&self, position: usize, option: u8) -> i16 {
        let mut weights = self.view.entries.chunks(Kind::Weight.len());
        let weight = weights.find_map(|weight| match weight {
            [_, here, of, low, high] if usize::from(*here) == position && *of == option => {
                Some(i16::from_le_bytes([*low, *high]))
            }
            _ => None,
        });
        weight.unwrap_or(0)
    }

    fn total(&self, list: &List) -> i32 {
        list.iter()
            .enumerate()
            .take(self.view.scope.len())
            .fold(0i32, |sum, (position, option)| {
                sum.wrapping_add(i32::from(self.weight_of(position, *option)))
            })
    }

    fn admits(&self, list: &List) -> bool {
        match self.make {
            Make::Fit => self.has_row(list),
            Make::Bar => !self.has_row(list),
            Make::Load => self.total(list) <= self.view.cap,
        }
    }

    fn fits(&self, slate: &OptionBox, list: &List) -> bool {
        self.view.scope.iter().zip(list).all(|(slot, option)| slate.is_open(
            usize::from(*slot),
            *option,
        ))
    }

    fn supports(&self, slate: &OptionBox, position: usize, option: u8) -> bool {
        (0..LISTS).map(list_of).any(|list| {
            list.get(position) == Some(&option) && self.fits(slate, &list) && self.admits(&list)
        })
    }

    // The box with the options of the scope closed that have no support.
    pub fn reckoned(&self, slate: &OptionBox) -> OptionBox {
        let mut left = *slate;
        for (position, slot) in self.view.scope.iter().enumerate() {
            for option in 0..OPTIONS {
                if !self.supports(slate, position, option) {
                    left.close(usize::from(*slot), option);
                }
            }
        }
        left
    }
}
