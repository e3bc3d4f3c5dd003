// What an exploration does with its stack of boxes.
ghost use Rattle.std.specs.Prelude.{◌≡◌, ◌+◌, ◌-◌, ◌<◌, MatchOption};
ghost use Rattle.subject.specs.Boxes.{Inside};
ghost use Rattle.boxes.specs.Boxes.{opens, Branching};
ghost use Rattle.explore.specs.Rewound.{Rewound};
ghost use Rattle.explore.specs.Split.{Split as SplitAt};
ghost use Rattle.explore.specs.Stacks.{height, pending, lost_of, weight_of};

use crate::rewind::rewind;
use crate::stack::Stack;
use binder::binders::Binder;
use boxes::OptionBox;
use boxes::slots::slot_alone;

impl Stack {
    // One box is to be explored. Its sheets hold what is open.
    pub fn new(slate: OptionBox) -> Stack
        ensures top { height result ≡ 1 }
        ensures first { pending result 0 ≡ opens slate.cells }
        ensures lost { lost_of result 0 ≡ 0 }
    {
        Stack {
            boxes: [slate; 49],
            lost: [0; 49],
            top: 1,
        }
    }

    // The box that is explored next, if one is left.
    pub(crate) fn next(&self) -> Option<OptionBox>
        ensures { MatchOption result (height self.now ≡ 0) (λ slate. (0 < height self.now) × (opens slate.cells ≡ pending self.now (height self.now - 1))) }
    {
        self.boxes[..self.top].last().copied()
    }

    // Drops the next box, and undoes its mark.
    pub(crate) fn drop_next<B: Binder>(&mut self, binder: &mut B)
        requires { 0 < height self.old }
        ensures top { height self.old ≡ height self.new + 1 }
        ensures same { pending self.new ≡ pending self.old }
        ensures lost { lost_of self.new ≡ lost_of self.old }
        ensures undone { Rewound (B.Binder.meaning binder.old) (B.Binder.meaning binder.new) 1 }
    {
        self.top -= 1;
        rewind(binder, 1);
    }

    // Puts a box in the place of the next one, split at a slot: with the lowest open option alone there it
    // is next, and without that option it is below.
    pub(crate) fn split(&mut self, slate: &OptionBox, slot: usize)
        requires top { 0 < height self.old }
        requires inside { Inside (opens slate.now.cells) (pending self.old (height self.old - 1)) }
        requires loose { Branching slate.now.cells slot }
        ensures top { height self.new ≡ height self.old + 1 }
        ensures split { SplitAt (pending self.old) (pending self.new) (lost_of self.old) (lost_of self.new) (height self.old - 1) (opens slate.now.cells) }
        ensures less { weight_of self.new < weight_of self.old }
    {
        let option = slate.lowest(slot).unwrap();
        let mut rest = *slate;
        rest.close(slot, option);
        let mut part = *slate;
        part.fix(slot, option);
        let lost = slot_alone(slot);
        self.boxes[self.top - 1] = rest;
        self.boxes[self.top] = part;
        self.lost[self.top - 1] = lost;
        self.lost[self.top] = lost;
        self.top += 1;
    }
}
