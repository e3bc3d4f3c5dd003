// Sees which slots lose options as sheets are shown the box, and so which sheets wait.
ghost use Rattle.std.specs.Prelude.{◌≡◌, ◌<◌, ◌⊎◌, ℕ, false, length, MatchBool, bit_or, slice_index, slice_index_or};
ghost use Rattle.boxes.specs.Boxes.{Within, Differ};
ghost use Rattle.settle.specs.Settled.{Loses};
ghost use Rattle.settle.specs.Waiting.{Spared, Begun, Passing, Looked, Turned};

use crate::reach::Reach;
use crate::waiting::Waiting;
use boxes::slots::{slot_alone, with_slot};
use boxes::{OptionBox, SLOTS};

// The most sheets that there can be.
const SHEETS: usize = 1024;

// The most slots that a sheet can name.
const NAMED: usize = 8;

// Whether two lists of cells open other options of a slot. These are slices, since a proof knows the range of what a slice
// holds, and not of what an array does.
fn differ(cells: &[u32], others: &[u32], slot: usize) -> bool
    requires first { slot < length cells.now }
    requires second { slot < length others.now }
    requires slot { slot < 48 }
    ensures { MatchBool result (Differ cells.now others.now) (slice_index cells.now slot ≡ slice_index others.now slot) }
{
    cells[slot] != others[slot]
}

impl Waiting {
    // Every sheet waits that names a lost slot.
    pub(crate) fn new(lost: u64, slate: &OptionBox) -> Waiting
        ensures begun { Begun result slate.now.cells }
        ensures late { result.late ≡ lost }
        ensures last { (t : ℕ) → slice_index_or result.last t 1024 ≡ 1024 }
    {
        Waiting {
            known: *slate,
            fresh: 0,
            late: lost,
            last: [SHEETS; 48],
        }
    }

    // The slots that lost an option in this round, or in the one before at a sheet further on.
    pub(crate) fn lost(&self) -> u64
        ensures { result ≡ bit_or self.now.late self.now.fresh }
    {
        self.late | self.fresh
    }

    // Whether the next sheet waits. Slots are dropped whose last loss no further sheet has missed.
    pub(crate) fn has(&mut self, reach: &Reach, sheet: usize) -> bool
        ensures passing { Passing self.old self.new sheet }
        ensures spared { result ≡ false → Spared self.new (slice_index reach.now.masks sheet) sheet sheet }
    {
        let mut rest = reach.mask(sheet) & self.late;
        for _ in 0..NAMED {
            if rest == 0 {
                break;
            }
            self.pass(sheet, rest.trailing_zeros() as usize);
            rest &= rest - 1;
        }
        !reach.spares(sheet, self.lost())
    }

    // Drops a slot of the round before, if it lost an option last at a sheet that is passed.
    fn pass(&mut self, sheet: usize, slot: usize)
        ensures { Passing self.old self.new sheet }
    {
        if slot < SLOTS && self.last[slot] <= sheet {
            self.late ^= slot_alone(slot);
        }
    }

    // Sees which slots of a sheet lost an option as it was shown the box, so that each other sheet waits that names one. Whether
    // one of them may have no option left.
    pub(crate) fn look(&mut self, reach: &Reach, sheet: usize, slate: &OptionBox) -> bool
        requires { Within slate.now.cells self.now.known.cells }
        ensures { Looked self.old self.new slate.now.cells sheet }
    {
        let mut empty = false;
        let mut rest = reach.mask(sheet);
        for _ in 0..NAMED {
            if rest == 0 {
                break;
            }
            let slot = rest.trailing_zeros() as usize;
            if slot < SLOTS && self.note(sheet, slot, slate) {
                empty = true;
            }
            rest &= rest - 1;
        }
        empty
    }

    // Sees whether a slot lost an option as a sheet was shown the box. Whether it did and has none left.
    fn note(&mut self, sheet: usize, slot: usize, slate: &OptionBox) -> bool
        requires slot { slot < 48 }
        requires less { Within slate.now.cells self.now.known.cells }
        ensures { Looked self.old self.new slate.now.cells sheet }
    {
        if !differ(&slate.cells, &self.known.cells, slot) {
            return false;
        }
        self.known.cells[slot] = slate.cells[slot];
        self.fresh = with_slot(self.fresh, slot);
        self.last[slot] = sheet;
        !slate.has_open(slot)
    }

    // Begins a round. Where a slot lost an option that was not looked at, as the set of a sheet lacks it, every sheet waits that
    // names a slot which lost any in the last round. Whether a slot did.
    pub(crate) fn turn(&mut self, slate: &OptionBox) -> bool
        requires { Within slate.now.cells self.now.known.cells }
        ensures turned { Turned self.old self.new slate.now.cells }
        ensures lost { MatchBool result ((self.old.fresh ≡ 0 → ⊥) ⊎ Loses self.old.known.cells slate.now.cells) (self.new.late ≡ 0) }
    {
        let unseen = slate.changed(&self.known);
        self.late = self.fresh | unseen;
        self.fresh = 0;
        if unseen == 0 {
            return self.late != 0;
        }
        self.known = *slate;
        self.last = [SHEETS; 48];
        true
    }
}
