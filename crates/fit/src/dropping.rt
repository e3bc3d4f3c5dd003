// Drops the rows that do not fit a box from the front of a run of places.
ghost use Rattle.std.specs.Prelude.{ℕ, ◌+◌, ◌*◌, ◌<◌, ◌≤◌, length, Decides};
ghost use Rattle.sheets.specs.Tables.{option_at};
ghost use Rattle.fit.specs.Runs.{Sifted};
ghost use Rattle.fit.specs.Rows.{Suits, Whole, Low, CellsAt, OpenAlong};

use crate::rows::whole_row;
use boxes::OptionBox;
use sheets::scope::Scope;
use sheets::sheet::Sheet;

// Of each position of a scope the cell of its slot, so that a row is looked at beside its cells.
fn cells_of(scope: &Scope, slate: &OptionBox) -> [u32; 8]
    ensures { CellsAt slate.now.cells scope.now.slots.now result }
{
    let mut cells = [0; 8];
    for (position, slot) in scope.slots.iter().enumerate() {
        cells[position] = slate.cells[*slot as usize];
    }
    cells
}

// Whether each option of a row is open in the cell of its position.
fn row_fits(cells: &[u32; 8], sheet: &Sheet, row: usize) -> bool
    requires whole { 9 * row + 9 ≤ length sheet.now.entries.now }
    requires low { (p : ℕ) → p < length sheet.now.scope.slots.now → option_at sheet.now.entries.now row p < 32 }
    ensures { Decides result (OpenAlong cells.now sheet.now.entries.now row (length sheet.now.scope.slots.now)) }
{
    for (position, option) in whole_row(sheet, row).iter().enumerate() {
        if (cells[position] >> *option) & 1 == 0 {
            return false;
        }
    }
    true
}

// Moves the rows of a sheet that do not fit to the end of a run of places, and says how many fit.
pub(crate) fn sift(run: &mut [u16], sheet: &Sheet, slate: &OptionBox) -> usize
    requires whole { Whole run.old sheet.now.entries.now }
    requires low { Low run.old sheet.now.entries.now (length sheet.now.scope.slots.now) }
    ensures { Sifted (Suits slate.now.cells sheet.now.scope.slots.now sheet.now.entries.now) run.old run.new result }
{
    let cells = cells_of(&sheet.scope, slate);
    let mut left = run.len();
    let mut place = 0;
    // A loop over the places is no plainer: a row that is swapped in is looked at in its turn at the same place.
    while place < left {
        if row_fits(&cells, sheet, run[place] as usize) {
            place += 1;
        } else {
            left -= 1;
            run.swap(place, left);
        }
    }
    left
}
