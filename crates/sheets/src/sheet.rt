// One sheet, as a checked catalogue shows it.
ghost use Rattle.std.specs.Prelude.{◌≡◌, ◌+◌, ◌*◌, ◌≤◌, length};
ghost use Rattle.sheets.specs.Tables.{row_at};

use crate::scope::Scope;

// How many bytes a row has: its kind, and an option or a byte that is not used for each of eight positions.
// It is the same as `Kind::Row.len()`, as a constant.
pub const ROW: usize = 9;

// The slots that it names, in their order; the cap, which is 0 where a make has none, as the definition says;
// and its rows or weights, each with its byte of kind. It is a view whose scope carries its two facts; the view itself
// cannot carry them, since that would ask more of whoever makes one.
#[derive(Clone, Copy)]
pub struct Sheet<'a> {
    pub scope: Scope<'a>,
    pub cap: i32,
    pub entries: &'a [u8],
}

impl<'a> Sheet<'a> {
    // The options of row r, counted from 0, one for each slot of the scope; what lies past the last row has fewer or none.
    // The ends of the parts are clamped, so that the call is total and asks nothing of a caller.
    pub fn row(&self, r: usize) -> &'a [u8]
        ensures { result.now ≡ row_at self.now.entries.now (length self.now.scope.slots.now) r }
    {
        let first = ROW.saturating_mul(r).saturating_add(1);
        let behind = &self.entries[first.min(self.entries.len())..];
        &behind[..self.scope.slots.len().min(behind.len())]
    }
}
