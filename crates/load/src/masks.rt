// The options of a scope that some light enough list supports, as a mask for each position.
ghost use Rattle.std.specs.Prelude.{◌≡◌, ℕ, ◌<◌, ◌≤◌, length, pos, slice_index_or};
ghost use Rattle.load.specs.Joins.{total};
ghost use Rattle.load.specs.Sums.{sums};
ghost use Rattle.load.specs.Tables.{weights_in};
ghost use Rattle.load.specs.Weights.{Small, Summed, Roomy, Allowed, Masked, MaskedAt, Supports};

use crate::leasts::leasts_of;
use crate::options::Options;
use crate::table::{Table, Weights};
use boxes::OptionBox;
use sheets::sheet::Sheet;

// What the least weights come to.
fn total_of(leasts: &[i32]) -> i32
    requires few { length leasts.now ≤ 8 }
    requires small { (p : ℕ) → p < length leasts.now → Small (slice_index_or leasts.now p (pos 0)) }
    ensures sum { result ≡ total sums leasts.now }
    ensures small { Summed result }
{
    // With `leasts.iter().sum()` the proof did not close: the library's lemmas on sums are over unsigned numbers.
    let mut sum = 0;
    for least in leasts {
        sum += *least;
    }
    sum
}

// The open options of a cell that total at most the cap with the rest. The crate `bar` gathers a mask by another test;
// one function over a test would be no plainer, since it would need a law about the test.
fn mask_of(weights: &Weights, rest: i32, cap: i32, cell: u32) -> u32
    requires { Roomy rest }
    ensures { Masked (Allowed weights.now.amounts rest «cap» cell) result }
{
    let mut mask = 0;
    'options: for option in Options::of(cell) {
        if weights.of(option) + rest <= cap {
            mask |= 1 << option;
        }
    }
    mask
}

// The same at each position of a scope, with the least of the others as the rest.
fn masks_of(table: &Table, leasts: &[i32], sheet: &Sheet, slate: &OptionBox) -> [u32; 8]
    requires long { length leasts.now ≡ length sheet.now.scope.slots.now }
    requires small { (p : ℕ) → p < length leasts.now → Small (slice_index_or leasts.now p (pos 0)) }
    ensures long { length result ≡ 8 }
    ensures masked { MaskedAt slate.now.cells sheet.now.scope.slots.now (weights_in table.now) leasts.now sheet.now.«cap» (length leasts.now) result }
{
    let total = total_of(leasts);
    let mut masks = [0; 8];
    // `position` only indexes: a `zip` with `iter_mut` tells a proof nothing of what was written.
    for (position, slot) in sheet.scope.slots.iter().enumerate() {
        let rest = total - leasts[position];
        let cell = slate.cells[*slot as usize];
        masks[position] = mask_of(&table.weights[position], rest, sheet.cap, cell);
    }
    masks
}

// The supported options of a sheet: none where a slot has no option open.
pub(crate) fn supported(table: &Table, sheet: &Sheet, slate: &OptionBox) -> [u32; 8]
    ensures { Supports (weights_in table.now) sheet.now.«cap» sheet.now.scope.slots.now slate.now.cells result }
{
    match leasts_of(table, &sheet.scope, slate) {
        Some(leasts) => masks_of(table, &leasts[..sheet.scope.slots.len()], sheet, slate),
        None => [0; 8],
    }
}
