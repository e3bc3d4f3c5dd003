// Reads a plan off a box.
ghost use Rattle.explore.specs.Laid.{Entry, Laid};

use boxes::{OPTIONS, OptionBox};
use std::array;

// The lowest open option of each slot. A plan is a table of fixed length, as memory is fixed: a slot with no option has 32
// there, which nothing reads.
pub(crate) fn lay(slate: &OptionBox) -> [u8; 48]
    ensures { Laid slate.now.cells result 48 }
{
    array::from_fn(
        |slot|
            ensures { Entry slate.entry.now.cells slot result }
        { slate.lowest(slot).unwrap_or(OPTIONS) },
    )
}
