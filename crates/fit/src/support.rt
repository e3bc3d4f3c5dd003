// Which options the kept rows hold, as a mask for each position of a scope.
ghost use Rattle.std.specs.Prelude.{◌<◌, length};
ghost use Rattle.fit.specs.Rows.{Whole, Low, Held, Gathered};

use crate::positions::Positions;
use crate::rows::whole_row;
use boxes::OptionBox;
use sheets::sheet::Sheet;

// How many rows make a block: so many that a mask is seldom written, and so few that hardly any are looked at in vain.
const BLOCK: usize = 16;

// The mask of the options that some rows have at one position.
fn held_at(position: usize, rows: &[u16], sheet: &Sheet) -> u32
    requires position { position < length sheet.now.scope.slots.now }
    requires whole { Whole rows.now sheet.now.entries.now }
    requires low { Low rows.now sheet.now.entries.now (length sheet.now.scope.slots.now) }
    ensures { Held rows.now sheet.now.entries.now (length rows.now) position result }
{
    let mut mask = 0;
    for row in rows {
        mask |= 1 << whole_row(sheet, *row as usize)[position];
    }
    mask
}

// The masks of the positions, from the rows of a sheet whose numbers are given. A position is wanted until all that its
// slot has open is supported, and is not looked at after. Once none is wanted, the rows behind are not looked at.
// Two nested loops over rows and positions, which are left by a label, are a named form of the project: a rule of it. The
// rows are taken in blocks, since a mask that is read and written again for each row makes a showing wait for that.
pub(crate) fn supports(rows: &[u16], sheet: &Sheet, slate: &OptionBox) -> [u32; 8]
    requires whole { Whole rows.now sheet.now.entries.now }
    requires low { Low rows.now sheet.now.entries.now (length sheet.now.scope.slots.now) }
    ensures { Gathered slate.now.cells sheet.now.scope.slots.now rows.now sheet.now.entries.now result (length sheet.now.scope.slots.now) }
{
    let slots = sheet.scope.slots;
    let mut masks = [0; 8];
    let mut wanted = Positions::first(slots.len());
    'rows: for block in rows.chunks(BLOCK) {
        'positions: for position in wanted {
            masks[position] |= held_at(position, block, sheet);
            if masks[position] == slate.cells[slots[position] as usize] {
                wanted = wanted.without(position);
                if wanted.is_empty() {
                    break 'rows;
                }
            }
        }
    }
    masks
}
