// Two binders side by side as one.
ghost use Rattle.std.specs.Prelude.{◌≡◌, ◌+◌, ◌<◌, ◌≤◌, true, ◌&&◌, ◌==◌, MatchResult};
ghost use Rattle.binder.specs.Refusals.{number_of};
ghost use Rattle.binder.specs.Joined.{meaning_of, proper_of, Beside};

use crate::binders::Binder;
use crate::clear::undo_all;
use crate::refusal::BinderRefusal;
use boxes::OptionBox;

// The most sheets that a binder may have.
const SHEETS: usize = 1024;

// The sheets of the first come first. Sheets from 1,024 on are no part of the join.
//
//   of the first:   0  1  ..  n-1
//   of the second:                  0    1   ..
//   of the join:    0  1  ..  n-1   n   n+1  ..  1023
//
// Both have the same number of marks. No ghost field can say so, since one of a generic struct cannot cite
// what a parameter means; so the meaning rests on a test: where `both` is unset or the marks differ, the
// join is the first alone. `new` starts with `both` set and no marks, and every call keeps the test true.
// An `Option<B>` would not do instead of `both`: a binder that stops counting may not be let go.
#[derive(Drop)]
pub struct Join<A: Binder, B: Binder> {
    first: A,
    second: B,
    both: bool,
}

impl<A: Binder, B: Binder> Join<A, B> {
    // Undoes every mark of either, and joins them. The contract is over what the new join means, which the
    // impl below gives.
    pub fn new(a: A, b: B) -> Self
        ensures { Beside (A.Binder.meaning a) (B.Binder.meaning b) (meaning_of A.Binder.meaning B.Binder.meaning result) }
    {
        let mut first = a;
        let mut second = b;
        undo_all(&mut first);
        undo_all(&mut second);
        Join {
            first,
            second,
            both: true,
        }
    }

    // Whether the second counts.
    fn level(&self) -> bool
        ensures { result ≡ (self.now.both && (A.Binder.meaning self.now.first).marks == (B.Binder.meaning self.now.second).marks) }
    {
        self.both && self.first.marks() == self.second.marks()
    }

    // Which sheet of the second a sheet of the join is, where it is none of the first.
    fn in_second(&self, sheet: usize) -> Result<usize, BinderRefusal>
        requires { (A.Binder.meaning self.now.first).count ≤ sheet }
        ensures { MatchResult result (λ place. ((self.now.both && (A.Binder.meaning self.now.first).marks == (B.Binder.meaning self.now.second).marks) ≡ true) × (sheet < 1024) × (sheet ≡ (A.Binder.meaning self.now.first).count + place))
            (λ e. (number_of e ≡ 31) × ((meaning_of A.Binder.meaning B.Binder.meaning self.now).count ≤ sheet)) }
    {
        if sheet >= SHEETS || !self.level() {
            return Err(BinderRefusal::NotThere);
        }
        Ok(sheet - self.first.sheets())
    }
}

impl<A: Binder, B: Binder> Binder for Join<A, B> {
    ghost meaning = { λ j. meaning_of A.Binder.meaning B.Binder.meaning j };

    ghost proper = { λ j. proper_of A.Binder.meaning B.Binder.meaning A.Binder.proper B.Binder.proper j };

    fn sheets(&self) -> usize {
        let n = self.first.sheets();
        if !self.level() {
            return n;
        }
        SHEETS.min(n + self.second.sheets())
    }

    #[tactic(auto, using(crate::proofs::Paired::paired_marks))]
    fn marks(&self) -> usize {
        self.first.marks()
    }

    // The three calls below ask the first or the second. One function for them would be no plainer: a closure that asks
    // either would have to take two types.
    fn arity(&self, sheet: usize) -> Result<usize, BinderRefusal> {
        if sheet < self.first.sheets() {
            return self.first.arity(sheet);
        }
        let place = self.in_second(sheet)?;
        self.second.arity(place)
    }

    fn slot_at(&self, sheet: usize, position: usize) -> Result<usize, BinderRefusal> {
        if sheet < self.first.sheets() {
            return self.first.slot_at(sheet, position);
        }
        let place = self.in_second(sheet)?;
        self.second.slot_at(place, position)
    }

    fn show(&mut self, sheet: usize, slate: &mut OptionBox) -> Result<(), BinderRefusal> {
        if sheet < self.first.sheets() {
            return self.first.show(sheet, slate);
        }
        let place = self.in_second(sheet)?;
        self.second.show(place, slate)
    }

    // Where the first alone counts before a call of these two, it alone counts after.
    fn mark(&mut self) -> Result<(), BinderRefusal> {
        let level = self.level();
        self.first.mark()?;
        if level {
            let _ = self.second.mark();
        }
        self.both = level;
        Ok(())
    }

    fn undo(&mut self) -> Result<(), BinderRefusal> {
        let level = self.level();
        self.first.undo()?;
        if level {
            let _ = self.second.undo();
        }
        self.both = level;
        Ok(())
    }
}
