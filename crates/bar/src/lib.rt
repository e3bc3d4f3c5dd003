// Bar sheets, as binders: each keeps, at all times, every list that is not among its rows.
#![tactic(auto)]

ghost use Rattle.std.specs.Prelude.{◌≡◌, true};
ghost use Rattle.catalogue.specs.declared.make.Make.TheVariants.{Bar as BarMake};
ghost use Rattle.catalogue.specs.Views.{is_make};

use binder::marks::Marks;
use sheets::table::SheetTable;

pub mod calls;
mod tally;

// Each sheet keeps every list that is not among its rows. What it keeps never changes, so that a mark is
// only counted.
#[derive(Drop)]
pub struct Bar<'a> {
    sheets: SheetTable<'a>,
    marks: Marks,
    ghost bars: { is_make BarMake sheets.make ≡ true },
}
