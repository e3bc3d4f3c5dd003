// Rows that are known to be there.
ghost use Rattle.std.specs.Prelude.{◌≡◌, ◌+◌, ◌*◌, ◌≤◌, length};
ghost use Rattle.sheets.specs.Tables.{row_at};

use sheets::sheet::{ROW, Sheet};

// The options of a row that lies whole in the entries, one for each slot of the scope. It is what `Sheet::row` gives; that
// clamps the ends of its parts, which a showing would pay for at each row.
pub(crate) fn whole_row<'a>(sheet: &Sheet<'a>, row: usize) -> &'a [u8]
    requires { 9 * row + 9 ≤ length sheet.now.entries.now }
    ensures { result.now ≡ row_at sheet.now.entries.now (length sheet.now.scope.slots.now) row }
{
    let first = ROW * row + 1;
    &sheet.entries[first..first + sheet.scope.slots.len()]
}
