// The least weight among the open options of each slot of a scope.
ghost use Rattle.load.specs.Weights.{OpenIn, LowestOf, Leasts, weight_of};
ghost use Rattle.load.specs.Tables.{weights_in};

use crate::options::Options;
use crate::table::{Table, Weights};
use boxes::OptionBox;
use sheets::scope::Scope;

// The least weight of the open options of a cell, if any is open.
fn least_of(weights: &Weights, cell: u32) -> Option<i32>
    ensures { LowestOf (OpenIn cell) (weight_of weights.now.amounts) result }
{
    Options::of(cell).map(|option| weights.of(option)).min()
}

// The least weight at each slot of a scope, unless a slot has no option open.
pub(crate) fn leasts_of(table: &Table, scope: &Scope, slate: &OptionBox) -> Option<[i32; 8]>
    ensures { Leasts slate.now.cells scope.now.slots.now (weights_in table.now) result }
{
    let mut leasts = [0; 8];
    // `position` only indexes: a `zip` with `iter_mut` tells a proof nothing of what was written.
    for (position, slot) in scope.slots.iter().enumerate() {
        let cell = slate.cells[*slot as usize];
        leasts[position] = least_of(&table.weights[position], cell)?;
    }
    Some(leasts)
}
