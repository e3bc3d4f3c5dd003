// The catalogue whose sheets are shown: three slots, and sheets of every make with scopes of one, two and
// three slots.
use samples::draft::Draft;
use std::alloc::{AllocError, Global};

fn fits(draft: Draft) -> Result<Draft, AllocError> {
    let draft = draft
        .fit(&[0, 1])?
        .row(&[0, 0])?
        .row(&[0, 1])?
        .row(&[1, 1])?;
    let draft = draft
        .row(&[2, 2])?
        .fit(&[2, 0])?
        .row(&[0, 2])?
        .row(&[1, 0])?;
    let draft = draft.fit(&[1])?.row(&[1])?.fit(&[2])?;
    let draft = draft.fit(&[0, 1, 2])?.row(&[0, 1, 0])?.row(&[1, 2, 1])?;
    draft.row(&[2, 0, 0])?.row(&[2, 0, 1])?.row(&[0, 0, 0])
}

fn bars(draft: Draft) -> Result<Draft, AllocError> {
    let draft = draft
        .bar(&[0, 1])?
        .row(&[0, 0])?
        .row(&[0, 1])?
        .row(&[0, 2])?;
    let draft = draft.row(&[1, 1])?.bar(&[1])?.row(&[0])?.row(&[2])?;
    let draft = draft.bar(&[2])?.bar(&[2, 1, 0])?.row(&[0, 0, 0])?;
    let draft = draft.row(&[0, 0, 1])?.row(&[0, 0, 2])?.row(&[1, 2, 2])?;
    draft.row(&[0, 1, 1])?.row(&[1, 1, 1])
}

fn loads(draft: Draft) -> Result<Draft, AllocError> {
    let draft = draft
        .load(&[0, 1], 400)?
        .weight(0, 0, 300)?
        .weight(0, 1, 500)?;
    let draft = draft.weight(1, 0, 200)?.weight(1, 1, -100)?;
    let draft = draft.load(&[2], -1)?.weight(0, 1, -1)?;
    let draft = draft
        .load(&[2, 0, 1], 0)?
        .weight(0, 0, 5)?
        .weight(0, 1, -5)?;
    let draft = draft
        .weight(1, 0, -2)?
        .weight(1, 1, 2)?
        .weight(1, 2, 30_000)?;
    draft.weight(2, 0, 3)?.weight(2, 2, -30_000)
}

pub fn file(heap: Global) -> Result<Draft, AllocError> {
    let draft = Draft::new(heap).slot(3)?.slot(3)?.slot(2)?;
    loads(bars(fits(draft)?)?)?.end()
}
