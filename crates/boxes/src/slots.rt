// Sets of slots as numbers: slot s is in a set where bit s of it is one.
ghost use Rattle.std.specs.Prelude.{◌≡◌, length, Decides};
ghost use Rattle.boxes.specs.Slots.{EverySlot, Lone, Added, Disjoint, Changed};

use crate::{OptionBox, SLOTS};

// The set of every slot that a box covers.
#[tactic(auto, using(crate::proofs::Sets::whole))]
pub fn all_slots() -> u64
    ensures { EverySlot result }
{
    (1 << SLOTS) - 1
}

// The set of one slot; it is empty where a box covers no such slot.
#[tactic(auto, using(crate::proofs::Sets::lone, crate::proofs::Sets::lone_none))]
pub fn slot_alone(slot: usize) -> u64
    ensures { Lone result slot }
{
    if slot < SLOTS { 1 << slot } else { 0 }
}

// A set with one slot more, if a box covers it.
#[tactic(auto, using(crate::proofs::Sets::added))]
pub fn with_slot(set: u64, slot: usize) -> u64
    ensures { Added set result slot }
{
    set | slot_alone(slot)
}

// Whether two sets have no slot in common.
#[tactic(auto, using(crate::proofs::Sets::apart))]
pub fn apart(set: u64, other: u64) -> bool
    ensures { Decides result (Disjoint set other) }
{
    set & other == 0
}

// The slots at which two lists of cells differ. These are slices, since a proof knows the range of what a slice holds, and
// not of what an array does.
fn differing(cells: &[u32], others: &[u32]) -> u64
    requires first { length cells.now ≡ 48 }
    requires second { length others.now ≡ 48 }
    ensures { Changed cells.now others.now 48 result }
{
    let mut set = 0;
    for slot in 0..SLOTS {
        if cells[slot] != others[slot] {
            set = with_slot(set, slot);
        }
    }
    set
}

impl OptionBox {
    // The slots at which another box opens other options.
    pub fn changed(&self, other: &OptionBox) -> u64
        ensures { Changed self.now.cells other.now.cells 48 result }
    {
        differing(&self.cells, &other.cells)
    }
}
