// What is done with a planner, and a number that depends on all that came out.
use binder::binders::Binder;
use catalogue::checked::Catalogue;
use catalogue::make::Make;
use planner::state::Planner;
use planner::step::Step;
use samples::random::Random;
use sheets::table::SheetTable;
use sheets::taking::sheets_of;

// How many answers there were, and a number that depends on each.
#[derive(Clone, Copy, Default)]
pub struct Tally {
    pub answers: u64,
    pub checksum: u64,
}

impl Tally {
    fn mix(&mut self, number: u64) {
        self.checksum = self.checksum.wrapping_mul(31).wrapping_add(number);
    }

    fn note(&mut self, number: u64) {
        self.answers = self.answers.wrapping_add(1);
        self.mix(number);
    }

    fn note_plan(&mut self, plan: &[u8]) {
        self.answers = self.answers.wrapping_add(1);
        for option in plan {
            self.mix(u64::from(*option));
        }
    }
}

// Asks for so many plans. After the last one the walk begins again.
pub fn walk<B: Binder + Drop>(planner: Planner<B>, count: u32) -> Tally {
    let mut tally = Tally::default();
    let mut plan = [0; 48];
    let mut walk = planner.begin();
    for _ in 0..count {
        match walk.next(&mut plan[..]) {
            Ok(Step::Plan(_)) => tally.note_plan(&plan),
            _ => {
                tally.note(0);
                walk = walk.end().begin();
            }
        }
    }
    tally
}

// What a person does at an order screen: three tries, a strike, six looks, and all taken back.
pub fn screen<B: Binder + Drop>(mut planner: Planner<B>, count: u32) -> Tally {
    let mut tally = Tally::default();
    let mut random = Random::new(1);
    for _ in 0..count {
        for _ in 0..3 {
            let tried = planner.try_option(random.below(48) as usize, random.below(32) as usize);
            tally.note(u64::from(tried.unwrap_or(0)));
        }
        let struck = planner.strike(random.below(48) as usize, random.below(32) as usize);
        tally.note(u64::from(struck.unwrap_or(0)));
        for _ in 0..6 {
            let looked = planner.look(random.below(48) as usize);
            tally.note(u64::from(looked.unwrap_or(0)));
        }
        for _ in 0..3 {
            tally.note(u64::from(planner.back().unwrap_or(0)));
        }
    }
    tally
}

// Adds up the bytes of all rows, or of all weights, of the sheets of one make.
fn added(sheets: &SheetTable) -> u64 {
    let mut sum: u64 = 0;
    for view in &sheets.views {
        for byte in view.entries {
            sum = sum.wrapping_add(u64::from(*byte));
        }
    }
    sum
}

// Passes over all rows and weights again and again, and does nothing but add them up.
pub fn read(catalogue: &Catalogue, count: u32) -> Tally {
    let fit = sheets_of(catalogue, Make::Fit);
    let bar = sheets_of(catalogue, Make::Bar);
    let load = sheets_of(catalogue, Make::Load);
    let mut tally = Tally::default();
    for _ in 0..count {
        tally.note(added(&fit));
        tally.note(added(&bar));
        tally.note(added(&load));
    }
    tally
}
