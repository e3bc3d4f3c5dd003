// An exploration, turn by turn.
ghost use Rattle.std.specs.Prelude.{◌≡◌, ◌<◌, List, length};
ghost use Rattle.subject.specs.Problem.{Problem};
ghost use Rattle.subject.specs.Boxes.{Box};
ghost use Rattle.subject.specs.Decisions.{Decision};
ghost use Rattle.subject.specs.Plans.{Plan};
ghost use Rattle.binder.specs.Meaning.{Binding};
ghost use Rattle.explore.specs.Levels.{Returned};
ghost use Rattle.explore.specs.Outcomes.{IfEmpty, Leaves, Long, Turned};
ghost use Rattle.explore.specs.Rewound.{Rewound};
ghost use Rattle.explore.specs.Exploring.{Exploring};
ghost use Rattle.explore.specs.Doing.{TurnDone};
ghost use Rattle.explore.specs.Stacks.{height, pending, lost_of, weight_of};
ghost use Rattle.settle.specs.Reach.{masks_of, Covers};

use crate::lay::lay;
use crate::outcome::Outcome;
use crate::rewind::rewind;
use crate::stack::Stack;
use binder::binders::Binder;
use settle::reach::Reach;
use settle::settle;

impl Stack {
    // Settles the next box, and then drops it or splits it in two. The binder has a mark below each box, which
    // is undone as the box is dropped, so that a box is settled from what its level kept. `stepped` says what a turn does
    // whatever is explored, and names what is left free; `law` says what that comes to for an exploration.
    pub fn turn<B: Binder>(&mut self, binder: &mut B, reach: &Reach, slots: usize) -> Outcome
        ensures law { (P : Problem) (D : List Decision) (G : List Plan) (X : Box) (m : Binding) → length P.sizes ≡ slots → Covers P.sheets P.scope (masks_of reach.now)
            → Exploring P D G X m (pending self.old) (lost_of self.old) (height self.old) (B.Binder.meaning binder.old)
            → Turned P D G X m result (pending self.new) (lost_of self.new) (height self.new) (B.Binder.meaning binder.new) }
        ensures stepped { IfEmpty result
            (height self.old ≡ 0)
            (TurnDone result (B.Binder.meaning binder.old) (B.Binder.meaning binder.new) (masks_of reach.now) slots (pending self.old) (pending self.new) (lost_of self.old) (lost_of self.new) (height self.old)) }
        ensures less { IfEmpty result
            ((height self.old ≡ 0) × (self.new ≡ self.old) × (binder.new ≡ binder.old))
            (weight_of self.new < weight_of self.old) }
        ensures left { Leaves result (height self.old) (height self.new) }
        ensures long { Long result }
    {
        let Some(mut slate) = self.next() else {
            return Outcome::Empty;
        };
        let lost = self.lost[self.top - 1];
        settle(binder, reach, slots, lost, &mut slate);
        if !slate.has_open(0) {
            self.drop_next(binder);
            return Outcome::Dry;
        }
        let Some(slot) = slate.loose() else {
            self.drop_next(binder);
            return Outcome::Found(lay(&slate));
        };
        self.split(&slate, slot);
        let _ = binder.mark();
        Outcome::Split
    }

    // Undoes the marks of the boxes that are still to be explored, the newest first. The binder is then back
    // where the exploration began.
    pub fn leave<B: Binder>(&self, binder: &mut B)
        ensures law { (P : Problem) (D : List Decision) (G : List Plan) (X : Box) (m : Binding)
            → Exploring P D G X m (pending self.now) (lost_of self.now) (height self.now) (B.Binder.meaning binder.old)
            → Returned P X m (B.Binder.meaning binder.new) }
        ensures rewound { Rewound (B.Binder.meaning binder.old) (B.Binder.meaning binder.new) (height self.now) }
    {
        rewind(binder, self.top);
    }
}
