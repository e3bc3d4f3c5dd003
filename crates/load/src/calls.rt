// Load sheets as a binder: its questions, showings and marks.
ghost use Rattle.std.specs.Prelude.{◌≡◌, ◌<◌, ◌≤◌, MatchResult};
ghost use Rattle.binder.specs.Refusals.{number_of};
ghost use Rattle.binder.specs.Meaning.{Shown};
ghost use Rattle.catalogue.specs.declared.make.Make.TheVariants.{Load as LoadMake};
ghost use Rattle.catalogue.specs.Verdict.{content};
ghost use Rattle.sheets.specs.Rules.{Fresh};
ghost use Rattle.sheets.specs.Tables.{sheets_in};
ghost use Rattle.load.specs.Calls.{meaning_of, proper_of};

use crate::Load;
use crate::masks::supported;
use crate::weights::tables_of;
use binder::binders::Binder;
use binder::marks::Marks;
use binder::refusal::BinderRefusal;
use boxes::OptionBox;
use catalogue::checked::Catalogue;
use catalogue::make::Make;
use sheets::closing::keep_only;
use sheets::taking::sheets_of;

impl<'a> Load<'a> {
    // The load sheets of a checked catalogue, with no mark.
    pub fn new(catalogue: &Catalogue<'a>) -> Load<'a>
        ensures { Fresh (sheets_in (content catalogue.now.bytes.now) LoadMake) (meaning_of result) }
    {
        let sheets = sheets_of(catalogue, Make::Load);
        let weights = tables_of(&sheets);
        let marks = Marks::none();
        Load {
            sheets,
            weights,
            marks,
        }
    }
}

impl<'a> Binder for Load<'a> {
    ghost meaning = { λ x. meaning_of x };

    ghost proper = { λ x. proper_of x };

    // The questions and marks hand on to what the makes share. One generic binder over a make's way to find support
    // would be no plainer: a trait with the meaning, its law and the showing would be longer than these calls.
    fn sheets(&self) -> usize {
        self.sheets.count
    }

    fn marks(&self) -> usize {
        self.marks.count
    }

    fn arity(&self, sheet: usize) -> Result<usize, BinderRefusal> {
        self.sheets.arity(sheet)
    }

    fn slot_at(&self, sheet: usize, position: usize) -> Result<usize, BinderRefusal> {
        self.sheets.slot_at(sheet, position)
    }

    // Closes what no light enough list holds. The binder itself stays as it is, so each sheet goes on keeping
    // every list whose weights total at most its cap.
    // The clause `shown` is said whole, as the interface says it: an impl with a clause of its own repeats it.
    fn show(&mut self, sheet: usize, slate: &mut OptionBox) -> Result<(), BinderRefusal>
        ensures shown { MatchResult result (λ _. (sheet < (meaning_of self.old).count) × Shown (meaning_of self.old) (meaning_of self.new) sheet slate.old.cells slate.new.cells)
            (λ e. (number_of e ≡ 31) × ((meaning_of self.old).count ≤ sheet) × (self.new ≡ self.old) × (slate.new ≡ slate.old)) }
        ensures stays { self.new ≡ self.old }
    {
        let taken = self.sheets.sheet(sheet)?;
        let tables = &self.weights;
        let masks = supported(&tables[sheet], &taken, slate);
        keep_only(slate, taken.scope.slots, &masks);
        Ok(())
    }

    fn mark(&mut self) -> Result<(), BinderRefusal> {
        self.marks.add()
    }

    fn undo(&mut self) -> Result<(), BinderRefusal> {
        self.marks.drop_newest()
    }
}
