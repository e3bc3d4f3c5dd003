// The fit binder's calls.
ghost use Rattle.std.specs.Prelude.{◌≡◌, ◌<◌, ◌≤◌, MatchResult, OnOk};
ghost use Rattle.binder.specs.Refusals.{number_of};
ghost use Rattle.binder.specs.Meaning.{Shown};
ghost use Rattle.fit.specs.Meaning.{meaning_of, proper_of, Exact};

use crate::Fit;
use crate::dropping::sift;
use crate::support::supports;
use binder::binders::Binder;
use binder::refusal::BinderRefusal;
use boxes::OptionBox;
use sheets::closing::keep_only;

impl<'a> Binder for Fit<'a> {
    ghost meaning = { meaning_of };

    ghost proper = { proper_of };

    // The questions and marks hand on to what the makes share. One generic binder over a make's way to find support
    // would be no plainer: a trait with the meaning, its law and the showing would be longer than these calls.
    fn sheets(&self) -> usize {
        self.sheets.count
    }

    fn marks(&self) -> usize {
        self.marks.count
    }

    fn arity(&self, sheet: usize) -> Result<usize, BinderRefusal> {
        self.sheets.arity(sheet)
    }

    fn slot_at(&self, sheet: usize, position: usize) -> Result<usize, BinderRefusal> {
        self.sheets.slot_at(sheet, position)
    }

    // Drops the rows that do not fit, all of them, and then closes what the rows that are left do not hold.
    // The clause `shown` is said whole, as the interface says it: an impl with a clause of its own repeats it.
    fn show(&mut self, sheet: usize, slate: &mut OptionBox) -> Result<(), BinderRefusal>
        ensures shown { MatchResult result (λ _. (sheet < (meaning_of self.old).count) × Shown (meaning_of self.old) (meaning_of self.new) sheet slate.old.cells slate.new.cells)
            (λ e. (number_of e ≡ 31) × ((meaning_of self.old).count ≤ sheet) × (self.new ≡ self.old) × (slate.new ≡ slate.old)) }
        ensures exact { OnOk result (Exact (meaning_of self.old) (meaning_of self.new) sheet slate.old.cells) }
    {
        let shown = self.sheets.sheet(sheet)?;
        let start = self.starts[sheet] as usize;
        let end = start + self.counts[sheet] as usize;
        let left = sift(&mut self.order[start..end], &shown, slate);
        self.counts[sheet] = left as u16;
        let run = &self.order[start..end];
        let masks = supports(&run[..left], &shown, slate);
        keep_only(slate, shown.scope.slots, &masks);
        Ok(())
    }

    fn mark(&mut self) -> Result<(), BinderRefusal> {
        let mut marks = self.marks;
        marks.add()?;
        let counts = self.counts;
        self.saved[self.marks.count] = counts;
        self.marks = marks;
        Ok(())
    }

    fn undo(&mut self) -> Result<(), BinderRefusal> {
        let mut marks = self.marks;
        marks.drop_newest()?;
        let counts = self.saved[marks.count];
        self.counts = counts;
        self.marks = marks;
        Ok(())
    }
}
