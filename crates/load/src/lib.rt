// The load make: binders of sheets that keep the lists whose weights total at most a cap.
#![tactic(auto)]

ghost use Rattle.std.specs.Prelude.{◌≤◌};

use crate::table::Table;
use binder::marks::Marks;
use sheets::table::SheetTable;

pub mod calls;
mod leasts;
mod masks;
mod options;
mod table;
mod weights;

// The sheets, what their options weigh, and how many marks stand.
//
//   weights:  [ sheet 0 | .. | sheet 7 ]    a sheet:  [ position 0: options 0 to 31 | .. | position 7 ]
//
// What a sheet keeps never changes, so a mark is only counted. The weights are a table of all that there can be,
// since the library takes no memory from a heap.
#[derive(Drop)]
pub struct Load<'a> {
    sheets: SheetTable<'a>,
    weights: [Table; 8],
    marks: Marks,
    ghost few: { sheets.count ≤ 8 },
}
