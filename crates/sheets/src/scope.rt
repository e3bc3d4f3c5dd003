// The slots that a sheet names.
ghost use Rattle.std.specs.Prelude.{ℕ, ◌<◌, ◌≤◌, length, slice_index, Decides};
ghost use Rattle.boxes.specs.Boxes.{Fits};

use boxes::OptionBox;

// At most eight slots, each of a number that a box covers.
#[derive(Clone, Copy)]
pub struct Scope<'a> {
    pub slots: &'a [u8],
    ghost short: { length slots.now ≤ 8 },
    ghost covered: { (p : ℕ) → p < length slots.now → slice_index slots.now p < 48 },
}

impl<'a> Scope<'a> {
    // Whether a row fits the box: it has one option for each slot, and each is open there.
    pub fn fits(&self, slate: &OptionBox, row: &[u8]) -> bool
        ensures { Decides result (Fits slate.now.cells self.now.slots.now row.now) }
    {
        if row.len() != self.slots.len() {
            return false;
        }
        self.slots.iter().zip(row).all(|(slot, option)| slate.is_open(usize::from(*slot), *option))
    }
}
