// A binder that none of the makes is: one sheet that names one slot, of any number, and admits every option.
ghost use Rattle.std.specs.Prelude.{◌≡◌};
ghost use Rattle.own_binder.specs.OneSheet.{one_sheet, meaning_of, proper_of};

use binder::binders::Binder;
use binder::marks::Marks;
use binder::refusal::BinderRefusal;
use boxes::OptionBox;

// The slot, and how many marks stand: what the sheet keeps never changes.
#[derive(Drop)]
pub struct OneSheet {
    slot: usize,
    marks: Marks,
}

impl OneSheet {
    // The slot may be one that no box covers.
    pub fn new(slot: usize) -> OneSheet
        ensures { meaning_of result ≡ one_sheet slot 0 }
    {
        let marks = Marks::none();
        OneSheet { slot, marks }
    }
}

impl Binder for OneSheet {
    ghost meaning = { λ x. meaning_of x };

    ghost proper = { λ x. proper_of x };

    fn sheets(&self) -> usize {
        1
    }

    fn marks(&self) -> usize {
        self.marks.count
    }

    fn arity(&self, sheet: usize) -> Result<usize, BinderRefusal> {
        if sheet >= 1 {
            return Err(BinderRefusal::NotThere);
        }
        Ok(1)
    }

    fn slot_at(&self, sheet: usize, position: usize) -> Result<usize, BinderRefusal> {
        if sheet >= 1 || position >= 1 {
            return Err(BinderRefusal::NotThere);
        }
        Ok(self.slot)
    }

    // Each open option is held by the list of that option alone, so nothing closes.
    fn show(&mut self, sheet: usize, _slate: &mut OptionBox) -> Result<(), BinderRefusal> {
        if sheet >= 1 {
            return Err(BinderRefusal::NotThere);
        }
        Ok(())
    }

    fn mark(&mut self) -> Result<(), BinderRefusal> {
        self.marks.add()
    }

    fn undo(&mut self) -> Result<(), BinderRefusal> {
        self.marks.drop_newest()
    }
}
