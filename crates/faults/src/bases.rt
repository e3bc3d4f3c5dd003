// How the files of several cases begin. Some are there twice, with a fit sheet and with a load sheet: one function for
// both would be told a cap that a fit sheet has not, so it would be no plainer.
use samples::draft::Draft;
use std::alloc::{AllocError, Global};

// One slot of one option: 2 bytes.
pub fn one_slot(heap: Global) -> Result<Draft, AllocError> {
    Draft::new(heap).slot(1)
}

// Slots of two and of three options: 4 bytes.
pub fn two_slots(heap: Global) -> Result<Draft, AllocError> {
    Draft::new(heap).slot(2)?.slot(3)
}

// The same and a fit sheet on both: 14 bytes.
pub fn fit_pair(heap: Global) -> Result<Draft, AllocError> {
    two_slots(heap)?.fit(&[0, 1])
}

// The same with a load sheet: 18 bytes.
pub fn load_pair(heap: Global) -> Result<Draft, AllocError> {
    two_slots(heap)?.load(&[0, 1], 10)
}

// One slot and a fit sheet on it: 12 bytes.
pub fn fit_one(heap: Global) -> Result<Draft, AllocError> {
    one_slot(heap)?.fit(&[0])
}

// One slot and a load sheet on it: 16 bytes.
pub fn load_one(heap: Global) -> Result<Draft, AllocError> {
    one_slot(heap)?.load(&[0], 10)
}

// One slot and so many fit sheets on it: 2 bytes, and 10 more for each.
pub fn fit_sheets(heap: Global, n: u8) -> Result<Draft, AllocError> {
    (0..n).try_fold(one_slot(heap)?, |draft, _| draft.fit(&[0]))
}

// One slot and so many load sheets on it: 2 bytes, and 14 more for each.
pub fn load_sheets(heap: Global, n: u8) -> Result<Draft, AllocError> {
    (0..n).try_fold(one_slot(heap)?, |draft, _| draft.load(&[0], 10))
}

// Eight slots of 32 options, and a fit sheet on them with so many rows: 26 bytes, and 9 more for each.
pub fn many_rows(heap: Global, n: u16) -> Result<Draft, AllocError> {
    let slots = Draft::new(heap).slots(8, 32)?;
    slots.fit(&[0, 1, 2, 3, 4, 5, 6, 7])?.rows(n)
}
