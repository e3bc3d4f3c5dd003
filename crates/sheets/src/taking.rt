// Takes the sheets of one make from a checked catalogue.
ghost use Rattle.std.specs.Prelude.{◌≡◌, ℕ, ◌≤◌, [], map, length};
ghost use Rattle.catalogue.specs.Verdict.{content};
ghost use Rattle.catalogue.specs.Views.{showing};
ghost use Rattle.sheets.specs.Tables.{shown_in, shown_at, sheets_in};

use crate::table::{SheetTable, no_view};
use catalogue::checked::Catalogue;
use catalogue::make::Make;

// All sheets of a make, in the file's order. The rest of the table shows nothing.
#[tactic(auto, using(crate::proofs::Chosen::count_few))]
pub fn sheets_of<'a>(catalogue: &Catalogue<'a>, make: Make) -> SheetTable<'a>
    ensures is { shown_in result.views result.count ≡ map showing (sheets_in (content catalogue.now.bytes.now) make) }
    ensures make { result.make ≡ make }
    ensures rest { (s : ℕ) → result.count ≤ s → shown_at result.views s ≡ shown_at [] 0 }
    ensures count { result.count ≡ length (sheets_in (content catalogue.now.bytes.now) make) }
{
    let count = catalogue.sheet_count(make);
    let mut views = [no_view(); 64];
    // With `array::from_fn` and a closure that asks the catalogue this is proved too, but the prover cannot write down what
    // other crates need of that proof.
    'sheets: for i in 0..count {
        if let Some(view) = catalogue.sheet(make, i) {
            views[i] = view;
        }
    }
    SheetTable { make, views, count }
}
