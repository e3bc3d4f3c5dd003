// The binder of fit sheets: each sheet keeps some of its rows.
#![tactic(auto)]

ghost use Rattle.fit.specs.Laid.{Laid};

use binder::marks::Marks;
use sheets::table::SheetTable;

pub mod calls;
mod dropping;
pub mod filling;
mod positions;
mod rows;
mod support;

// The rows that a sheet keeps are a sparse set: the front of a run of places that hold row numbers. Each
// sheet has a run of `order`, with as many places as it has rows. `starts` says where it begins, and
// `counts` how long its front is.
//
//   order:  .. | 4  0  2 : 3  1 | ..    the run of a sheet with five rows
//                ^ start ^ start + count
//                kept      dropped
//
// A row that does not fit is swapped with the last kept one, and the count falls by one. So a row that
// leaves a front stays in every longer front: a mark saves only the counts, and an undo puts them back. One
// table of starts and counts together would be no plainer, since a mark would then copy the starts too. All
// are tables of as much as there can be, since the library takes no memory from a heap.
#[derive(Drop)]
pub struct Fit<'a> {
    sheets: SheetTable<'a>,
    order: [u16; 4096],
    starts: [u16; 64],
    counts: [u16; 64],
    saved: [[u16; 64]; 72],
    marks: Marks,
    ghost laid: { ∥ Laid sheets.views sheets.count starts order counts saved marks.count ∥₁ },
}
