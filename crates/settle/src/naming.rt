// Asks a binder which slots its sheets name, and the table which sheets name a slot of a set.
ghost use Rattle.std.specs.Prelude.{◌≡◌, ℕ, Decides, slice_index};
ghost use Rattle.boxes.specs.Slots.{Disjoint};
ghost use Rattle.settle.specs.Reach.{masks_of, Named};

use crate::reach::Reach;
use binder::binders::Binder;
use boxes::SLOTS;
use boxes::slots::{apart, with_slot};

// The slots that a sheet names, as far as a box covers them; none where there is no such sheet. A slot of a higher number has
// nothing open, and so never loses anything: it is no reason to ask the sheet again.
fn slots_named<B: Binder>(binder: &B, sheet: usize) -> u64
    ensures { Named (B.Binder.meaning binder.now) sheet result }
{
    let mut set = 0;
    for position in 0..binder.arity(sheet).unwrap_or(0) {
        set = with_slot(set, binder.slot_at(sheet, position).unwrap_or(SLOTS));
    }
    set
}

impl Reach {
    // Asks a binder which slots its sheets name.
    pub fn of<B: Binder>(binder: &B) -> Reach
        ensures { (k : ℕ) → Named (B.Binder.meaning binder.now) k (slice_index (masks_of result) k) }
    {
        let mut masks = [0; 1024];
        for sheet in 0..binder.sheets() {
            masks[sheet] = slots_named(binder, sheet);
        }
        Reach { masks }
    }

    // The slots that a sheet names; none where there is no such sheet.
    pub(crate) fn mask(&self, sheet: usize) -> u64
        ensures { result ≡ slice_index self.now.masks sheet }
    {
        self.masks.get(sheet).copied().unwrap_or(0)
    }

    // Whether a sheet names no slot of a set.
    pub(crate) fn spares(&self, sheet: usize, set: u64) -> bool
        ensures { Decides result (Disjoint (slice_index self.now.masks sheet) set) }
    {
        apart(self.mask(sheet), set)
    }
}
