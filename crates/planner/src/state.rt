// What a planner and a walk hold.
ghost use Rattle.std.specs.Prelude.{◌≡◌, ◌≤◌, length};

use crate::step::State;
use binder::binders::Binder;
use boxes::OptionBox;
use explore::stack::Stack;
use settle::reach::Reach;

// How many slots there are, and how many options each has. The sizes stand in a table that is as long as there can be
// slots. It is fixed memory: the library takes none from a heap, and an `ArrayVec` is not `Copy`.
// A plan that is answered has the same shape and another meaning, so that one type for both would be no plainer.
#[derive(Clone, Copy)]
pub struct Slots {
    pub(crate) sizes: [u8; 48],
    pub(crate) count: usize,
    ghost few: { count ≤ 48 },
    ghost long: { length sizes ≡ 48 },
}

// The box that is open now, and the box before each standing try. The binder has a mark for each of those. Its sheets hold
// what is open, and `reach` says which of them name a slot, so that after a decision no others are asked.
//
//   saved:  [ box before try 0 | box before try 1 | .. ]     slate: the box after the newest decision
//                                      depth - 1 ^
//
// Each try copies the box into a plain table inside the planner: a rule of the project names this form. It is fixed
// memory: the library takes none from a heap.
#[derive(Drop)]
pub struct Planner<B: Binder> {
    pub(crate) binder: B,
    pub(crate) slots: Slots,
    pub(crate) reach: Reach,
    pub(crate) slate: OptionBox,
    pub(crate) saved: [OptionBox; 16],
    pub(crate) depth: usize,
    ghost deep: { depth ≤ 16 },
    ghost long: { length saved ≡ 16 },
}

// A planner that is walked through: the boxes that are still to be explored for plans, and how far the walk is.
// The binder has a mark for each of those boxes above the planner's own.
#[derive(Drop)]
pub struct Walk<B: Binder> {
    pub(crate) planner: Planner<B>,
    pub(crate) stack: Stack,
    pub(crate) state: State,
}
