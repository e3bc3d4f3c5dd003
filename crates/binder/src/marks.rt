// How many marks stand on a binder.
ghost use Rattle.std.specs.Prelude.{◌≡◌, ◌+◌, ◌<◌, ◌≤◌, MatchResult};
ghost use Rattle.binder.specs.Refusals.{number_of};

use crate::refusal::BinderRefusal;

// The most marks that may stand.
pub const MARKS: usize = 72;

// At most 72.
#[derive(Clone, Copy)]
pub struct Marks {
    pub count: usize,
    ghost few: { count ≤ 72 },
}

impl Marks {
    // No mark stands.
    pub fn none() -> Self
        ensures { result.count ≡ 0 }
    {
        Marks { count: 0 }
    }

    // One mark more, unless as many stand as may.
    pub fn add(&mut self) -> Result<(), BinderRefusal>
        ensures { MatchResult result (λ _. (self.old.count < 72) × (self.new.count ≡ self.old.count + 1))
            (λ e. (number_of e ≡ 32) × (72 ≤ self.old.count) × (self.new ≡ self.old)) }
    {
        if self.count >= MARKS {
            return Err(BinderRefusal::TooManyMarks);
        }
        self.count += 1;
        Ok(())
    }

    // One mark fewer, if any stands.
    pub fn drop_newest(&mut self) -> Result<(), BinderRefusal>
        ensures { MatchResult result (λ _. self.old.count ≡ self.new.count + 1)
            (λ e. (number_of e ≡ 33) × (self.old.count ≡ 0) × (self.new ≡ self.old)) }
    {
        if self.count == 0 {
            return Err(BinderRefusal::NoMark);
        }
        self.count -= 1;
        Ok(())
    }
}
