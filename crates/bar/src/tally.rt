// Finds by counting which options of a bar sheet's scope are supported: those that some list has which
// fits the box and is not among the rows. Rows are all different, so such a list is left exactly where
// fewer fitting rows have the option than there are fitting lists that do.
ghost use Rattle.std.specs.Prelude.{◌≡◌, ℕ, ◌/◌, ◌<◌, ◌≤◌, [], length, replicate, Decides, slice_index, slice_index_or, slice_set};
ghost use Rattle.boxes.specs.Boxes.{Open, Fits};
ghost use Rattle.bar.specs.Counted.{HowMany, product};
ghost use Rattle.bar.specs.Tally.{Measures, Bears, Tallied, Fewer, Room, Marks, RowsApart, Backs};

use boxes::{OPTIONS, OptionBox};
use sheets::scope::Scope;
use sheets::sheet::{ROW, Sheet};
use std::array;

// How many options are open at a position of a scope; past its last, 1.
fn size_at(scope: &Scope, slate: &OptionBox, position: usize) -> u64
    ensures { Measures slate.now.cells scope.now.slots.now position result }
{
    match scope.slots.get(position) {
        Some(slot) => u64::from(slate.cells[*slot as usize].count_ones()),
        None => 1,
    }
}

// How many options are open at each position of a scope, and 1 at each position past its last.
#[derive(Drop)]
struct Sizes {
    // An array, since the library uses no heap. A size of 1 changes no product, so products stop at the scope's last
    // position: a showing of a sheet that names few slots does no work for those that it does not name.
    each: [u64; 8],
    arity: usize,
    ghost long: { length each ≡ 8 },
    ghost low: { (p : ℕ) → p < 8 → slice_index each p ≤ 32 },
    ghost short: { arity ≤ 8 },
    ghost past: { (p : ℕ) → arity ≤ p → p < 8 → slice_index each p ≡ 1 },
}

impl Sizes {
    fn of(scope: &Scope, slate: &OptionBox) -> Sizes
        ensures each { (p : ℕ) → p < 8 → Measures slate.now.cells scope.now.slots.now p (slice_index result.each p) }
        ensures arity { result.arity ≡ length scope.now.slots.now }
    {
        Sizes {
            each: array::from_fn(|position| size_at(scope, slate, position)),
            arity: scope.slots.len(),
        }
    }

    // How many lists fit the box and have a given open option at a position: the product of the other sizes,
    // which is 0 where another slot has no open option.
    #[tactic(auto, using(crate::proofs::Products::fits))]
    fn others(&self, position: usize) -> u64
        ensures { result ≡ product (slice_set self.now.each position 1) }
    {
        let mut many = 1;
        for (place, size) in self.each[..self.arity].iter().enumerate() {
            if place != position {
                many *= *size;
            }
        }
        many
    }
}

// Whether an option is open at a slot that a box covers.
#[tactic(auto, using(crate::proofs::Passes::shifted, crate::proofs::Passes::shut))]
fn opens(slate: &OptionBox, slot: u8, option: u8) -> bool
    requires { slot < 48 }
    ensures { Decides result (Open slate.now.cells slot option) }
{
    option < OPTIONS && (slate.cells[usize::from(slot)] >> option) & 1 == 1
}

// Whether a row fits the box, as `Scope::fits` answers it. A showing asks it of every row, and most of its time goes here:
// the slots of a scope are covered, so this does not ask for each option again whether the box has its slot.
fn fits(scope: &Scope, slate: &OptionBox, row: &[u8]) -> bool
    requires { length row.now ≡ length scope.now.slots.now }
    ensures { Decides result (Fits slate.now.cells scope.now.slots.now row.now) }
{
    // With `all` over a `zip`, as there, the proof did not see that each slot is one of the scope's.
    for (position, slot) in scope.slots.iter().enumerate() {
        if !opens(slate, *slot, row[position]) {
            return false;
        }
    }
    true
}

// The options that are counted fewer than `many` times.
#[tactic(auto, using(crate::proofs::Passes::marks_none, crate::proofs::Passes::marks_yes, crate::proofs::Passes::marks_no))]
fn mask_of(counts: &[u32; 32], many: u64) -> u32
    ensures { Marks (Fewer counts.now many) 32 result }
{
    let mut mask = 0;
    for (option, count) in counts.iter().enumerate() {
        if u64::from(*count) < many {
            mask |= 1 << option;
        }
    }
    mask
}

// How many rows have each option at each position.
//
//   counts:  position 0: [ options 0 .. 31 ], position 1: [ options 0 .. 31 ], .. position 7
#[derive(Drop)]
struct Tally {
    // An array, since the library uses no heap; every position and option has its own count.
    counts: [[u32; 32]; 8],
    ghost long: { length counts ≡ 8 },
    ghost wide: { (p : ℕ) → p < 8 → length (slice_index_or counts p []) ≡ 32 },
}

impl Tally {
    // Counts the rows of a sheet that fit the box, from none on. The table is filled where it stands: one that is handed
    // out is copied, which takes longer than the rest of a showing of one slot.
    fn count(&mut self, sheet: &Sheet, slate: &OptionBox)
        requires few { length sheet.now.entries.now / 9 ≤ 65536 }
        requires none { self.old.counts ≡ replicate 8 (replicate 32 0) }
        ensures { (p o : ℕ) → p < length sheet.now.scope.slots.now → o < 32
            → HowMany (Bears slate.now.cells sheet.now.scope.slots.now sheet.now.entries.now p o) (length sheet.now.entries.now / 9) (slice_index (slice_index_or self.new.counts p []) o) }
    {
        for row in sheet.entries.chunks_exact(ROW) {
            let options = &row[1..=sheet.scope.slots.len()];
            if fits(&sheet.scope, slate, options) {
                self.add(options);
            }
        }
    }

    // Counts a row once at each position, under the option that it has there.
    #[tactic(auto, using(crate::proofs::Passes::tallied_more))]
    fn add(&mut self, options: &[u8])
        requires short { length options.now ≤ 8 }
        requires low { (p : ℕ) → p < length options.now → slice_index options.now p < 32 }
        requires few { (p o : ℕ) → p < length options.now → o < 32 → slice_index (slice_index_or self.old.counts p []) o < 65536 }
        ensures { Tallied options.now (length options.now) self.old.counts self.new.counts }
    {
        // `position` only indexes: a `zip` with `iter_mut` tells a proof nothing of what was written.
        for (position, option) in options.iter().enumerate() {
            self.counts[position][*option as usize] += 1;
        }
    }

    // At each position of the scope, the options that are counted fewer times than there are lists that have them. Past
    // its last position no slot takes them, so nothing is compared there.
    fn masks(&self, sizes: &Sizes) -> [u32; 8]
        ensures { (p : ℕ) → p < sizes.now.arity → Marks (Room (slice_index_or self.now.counts p []) sizes.now.each p) 32 (slice_index result p) }
    {
        let mut masks = [0; 8];
        for position in 0..sizes.arity {
            masks[position] = mask_of(&self.counts[position], sizes.others(position));
        }
        masks
    }
}

// At each position, the supported options. A bit may be set for an option that is not open.
pub(crate) fn supports(sheet: &Sheet, slate: &OptionBox) -> [u32; 8]
    requires few { length sheet.now.entries.now / 9 ≤ 65536 }
    requires apart { RowsApart sheet.now.entries.now (length sheet.now.scope.slots.now) (length sheet.now.entries.now / 9) }
    ensures { Backs slate.now.cells sheet.now.scope.slots.now sheet.now.entries.now (length sheet.now.entries.now / 9) result }
{
    let sizes = Sizes::of(&sheet.scope, slate);
    let mut tally = Tally {
        counts: [[0; 32]; 8],
    };
    tally.count(sheet, slate);
    tally.masks(&sizes)
}
