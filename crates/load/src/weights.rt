// The weights of load sheets, read once from their entries into tables.
ghost use Rattle.std.specs.Prelude.{◌≡◌, ℕ, ◌<◌, true, [], slice_index_or};
ghost use Rattle.catalogue.specs.declared.make.Make.TheVariants.{Load as LoadMake};
ghost use Rattle.catalogue.specs.Views.{is_make};
ghost use Rattle.sheets.specs.Tables.{shown_at};
ghost use Rattle.load.specs.Given.{Giving, TellsAll};
ghost use Rattle.load.specs.Tables.{weights_in, tables_in};

use crate::table::{Table, Weights};
use sheets::table::SheetTable;

// The table of some entries, from the last weight to the first, so that of two for one option the first stands.
fn table_of(entries: &[u8]) -> Table
    requires { ∥ Giving entries.now ∥₁ }
    ensures { TellsAll entries.now (weights_in result) }
{
    let none = Weights { amounts: [0; 32] };
    let mut weights = [none; 8];
    'entries: for entry in entries.rchunks_exact(5) {
        let position = entry[1] as usize;
        let option = entry[2] as usize;
        weights[position].amounts[option] = i16::from_le_bytes([entry[3], entry[4]]);
    }
    Table { weights }
}

// The tables of all sheets.
pub(crate) fn tables_of(sheets: &SheetTable) -> [Table; 8]
    requires { is_make LoadMake sheets.now.make ≡ true }
    ensures { (s : ℕ) → s < sheets.now.count → TellsAll (shown_at sheets.now.views s).entries (slice_index_or (tables_in result) s []) }
{
    let none = Weights { amounts: [0; 32] };
    let empty = Table { weights: [none; 8] };
    let mut tables = [empty; 8];
    'sheets: for (s, view) in sheets.views[..sheets.count].iter().enumerate() {
        tables[s] = table_of(view.entries);
    }
    tables
}
