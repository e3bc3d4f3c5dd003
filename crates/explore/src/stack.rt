// The boxes that an exploration has still to go through.
ghost use Rattle.std.specs.Prelude.{◌≡◌, ◌≤◌, length};
ghost use Rattle.explore.specs.Narrow.{box_at, Narrow};

use boxes::OptionBox;

// The first `top` boxes are still to be explored, the last of them next.
//
//   boxes:  [ 0 | 1 | .. | top-1 | .. | 48 ]
//             ^ last       ^ next  ^ not in use
//
//   a split:   | next |   ->   | next without option o of slot s | next with o alone in slot s |
//
// Every plan of an upper box comes before every plan of a lower one. In box i each slot below i has at most
// one open option. So what is split in box i is slot i or a later one, and box 48 is never split. `lost` has of each box
// the slots that lost an option since its sheets held what was open, so that only the sheets that name one are asked.
// A table with the number in use beside it is fixed memory, since the library takes none from a heap. An `ArrayVec` is
// the same with more to prove.
#[derive(Drop)]
pub struct Stack {
    pub(crate) boxes: [OptionBox; 49],
    pub(crate) lost: [u64; 49],
    pub(crate) top: usize,
    ghost tall: { (top ≤ 49) × (length boxes ≡ 49) },
    ghost even: { length lost ≡ 49 },
    ghost narrow: { ∥ Narrow (box_at boxes) top ∥₁ },
}
