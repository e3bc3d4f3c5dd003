// Closes what has no support: the last step of every showing.
ghost use Rattle.sheets.specs.Closing.{Narrowed, shorter};

use boxes::OptionBox;

// Closes the options at the slots of a scope whose bits in the mask of their position are zero, and
// leaves everything else.
pub fn keep_only(slate: &mut OptionBox, scope: &[u8], masks: &[u32])
    ensures { Narrowed slate.old.cells slate.new.cells scope.now masks.now (shorter scope.now masks.now) }
{
    'positions: for (slot, mask) in scope.iter().zip(masks) {
        slate.restrict(*slot as usize, *mask);
    }
}
