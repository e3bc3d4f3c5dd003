// The catalogues of the runs.
use samples::draft::Draft;
use std::alloc::{AllocError, Global};

// 48 slots of 32 options. A fit sheet on slots 0 and 47 has two rows; six bar sheets name every slot and have none.
pub(crate) fn large(heap: Global) -> Result<Draft, AllocError> {
    Draft::new(heap)
        .slots(48, 32)?
        .fit(&[0, 47])?
        .row(&[3, 5])?
        .row(&[4, 6])?
        .bar(&[0, 1, 2, 3, 4, 5, 6, 7])?
        .bar(&[8, 9, 10, 11, 12, 13, 14, 15])?
        .bar(&[16, 17, 18, 19, 20, 21, 22, 23])?
        .bar(&[24, 25, 26, 27, 28, 29, 30, 31])?
        .bar(&[32, 33, 34, 35, 36, 37, 38, 39])?
        .bar(&[40, 41, 42, 43, 44, 45, 46, 47])?
        .end()
}

// Three slots of two, three and three options, two fit sheets and a bar sheet. Its plans are 0 0 0, 1 1 1 and 1 2 2.
pub(crate) fn small(heap: Global) -> Result<Draft, AllocError> {
    Draft::new(heap)
        .slot(2)?
        .slots(2, 3)?
        .fit(&[0, 1])?
        .row(&[0, 0])?
        .row(&[0, 1])?
        .row(&[1, 1])?
        .row(&[1, 2])?
        .fit(&[1, 2])?
        .row(&[0, 0])?
        .row(&[1, 1])?
        .row(&[2, 2])?
        .bar(&[0, 2])?
        .row(&[0, 1])?
        .end()
}
