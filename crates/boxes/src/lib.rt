// The box: of each slot, which options are open.
#![tactic(auto)]

ghost use Rattle.std.specs.Prelude.{◌≡◌, ◌≤◌, ℕ, [], ◌∷◌, length, replicate, Decides, slice_index};
ghost use Rattle.subject.specs.Boxes.{opened_at, opened};
ghost use Rattle.boxes.specs.Boxes.{Open, opens, Opened, Closed, Restricted, Fixed, Filled, Some as SomeOpen, Lowest, Two, Loose, Single, Below};

pub mod slots;

use std::array;

// How many slots and options a box covers.
pub const SLOTS: usize = 48;

pub const OPTIONS: u8 = 32;

// Slots 0 to 47 and options 0 to 31. Bit o of a slot's cell is one exactly where option o is open.
//
//   cells:  [ slot 0 | slot 1 | .. | slot 47 ]    a cell:  31 .. 3 2 1 0
//                                                           0 ..  1 0 1 1    options 0, 1 and 3 are open
#[derive(Clone, Copy, Debug)]
pub struct OptionBox {
    pub cells: [u32; 48],
    ghost long: { length cells ≡ 48 },
}

// The mask of one option, which has no bit where a box has no such option.
#[tactic(auto, using(crate::proofs::Bits::single_bit, crate::proofs::Bits::single_none))]
fn bit(option: u8) -> u32
    ensures { Single result option }
{
    if option < OPTIONS { 1 << option } else { 0 }
}

// The mask of the options below a number.
#[tactic(auto, using(crate::proofs::Counting::below_some, crate::proofs::Counting::below_all))]
fn below(size: u8) -> u32
    ensures { Below result size }
{
    if size < OPTIONS {
        (1 << size) - 1
    } else {
        u32::MAX
    }
}

// How many options a cell opens.
#[tactic(auto, using(crate::proofs::Counting::ones_alone))]
fn ones(cell: &u32) -> u32
    ensures opened { result ≡ opened_at (opens (cell.now ∷ [])) 0 }
    ensures bound { result ≤ 32 }
{
    cell.count_ones()
}

// Whether a cell opens two or more options.
#[tactic(auto, using(crate::proofs::Counting::two_decided))]
fn several(cell: &u32) -> bool
    ensures { Decides result (Two (cell.now ∷ []) 0) }
{
    cell.count_ones() >= 2
}

impl OptionBox {
    // The box in which nothing is open.
    pub fn none() -> OptionBox
        ensures cells { result.cells ≡ replicate 48 0 }
        ensures none { (s o : ℕ) → Open result.cells s o → ⊥ }
    {
        OptionBox { cells: [0; 48] }
    }

    // Opens of each slot as many of its first options as `sizes` says, as far as a box covers them.
    pub fn full(sizes: &[u8]) -> OptionBox
        ensures { Filled sizes.now result.cells }
    {
        OptionBox {
            cells: array::from_fn(
                |slot|
                    ensures { Below result (slice_index sizes.entry.now slot) }
                { below(sizes.get(slot).copied().unwrap_or(0)) },
            ),
        }
    }

    // The cell of a slot, in which nothing is open where there is no such slot.
    fn cell(&self, slot: usize) -> u32
        ensures { result ≡ slice_index self.now.cells slot }
    {
        self.cells.get(slot).copied().unwrap_or(0)
    }

    // Whether an option is open; none is where there is no such slot or option. A slot and an option are passed side by
    // side here and below: callers read them from two tables, so a pair would be made only to be taken apart.
    #[tactic(auto, using(crate::proofs::Bits::tested))]
    pub fn is_open(&self, slot: usize, option: u8) -> bool
        ensures { Decides result (Open self.now.cells slot option) }
    {
        self.cell(slot) & bit(option) != 0
    }

    // Opens one option, if the box has it, and leaves the others.
    pub fn open(&mut self, slot: usize, option: u8)
        ensures { Opened self.old.cells self.new.cells slot option }
    {
        // By index: after a write through `get_mut` a proof knows none of the cells.
        if slot < SLOTS {
            self.cells[slot] |= bit(option);
        }
    }

    // Closes one option, and leaves the others.
    pub fn close(&mut self, slot: usize, option: u8)
        ensures { Closed self.old.cells self.new.cells slot option }
    {
        self.restrict(slot, !bit(option));
    }

    // Closes the options of a slot whose bits in a mask are zero, and leaves the others.
    pub fn restrict(&mut self, slot: usize, mask: u32)
        ensures { Restricted self.old.cells self.new.cells slot mask }
    {
        // By index: after a write through `get_mut` a proof knows none of the cells.
        if slot < SLOTS {
            self.cells[slot] &= mask;
        }
    }

    // Closes every option of a slot but one, and leaves the other slots.
    #[tactic(auto, using(crate::proofs::Bits::fixed))]
    pub fn fix(&mut self, slot: usize, option: u8)
        ensures { Fixed self.old.cells self.new.cells slot option }
    {
        self.restrict(slot, bit(option));
    }

    // Whether some option of a slot is open.
    pub fn has_open(&self, slot: usize) -> bool
        ensures { Decides result (SomeOpen self.now.cells slot) }
    {
        self.cell(slot) != 0
    }

    // How many options are open.
    pub fn count(&self) -> u32
        ensures { result ≡ opened (opens self.now.cells) }
    {
        self.cells.iter().map(ones).sum()
    }

    // The lowest open option of a slot.
    #[tactic(auto, using(crate::proofs::Counting::lowest_is))]
    pub fn lowest(&self, slot: usize) -> Option<u8>
        ensures { Lowest self.now.cells slot result }
    {
        let cell = self.cell(slot);
        (cell != 0).then_some(cell.trailing_zeros() as u8)
    }

    // The lowest slot with two or more open options.
    pub fn loose(&self) -> Option<usize>
        ensures { Loose self.now.cells result }
    {
        self.cells.iter().position(several)
    }
}
