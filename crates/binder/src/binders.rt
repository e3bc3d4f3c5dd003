// The binder: a numbered run of sheets, whose kept lists shrink as boxes are shown and come back as marks
// are undone.
ghost use Rattle.std.specs.Prelude.{◌≡◌, ℕ, ◌<◌, ◌≤◌, MatchResult};
ghost use Rattle.binder.specs.Refusals.{number_of, numbered};
ghost use Rattle.binder.specs.Meaning.{Binding, Proper, arity_of, slot_at, Shown, Noted, Undone};

use crate::refusal::BinderRefusal;
use boxes::OptionBox;

pub trait Binder {
    // What a binder means: its sheets with their scopes, the lists that each keeps now, and those that
    // each kept at each standing mark.
    ghost meaning: { Self → Binding };

    // What holds of every binder; each make proves it of its own.
    ghost proper: { (x : Self) → Proper (meaning x) };

    // How many sheets there are.
    fn sheets(&self) -> usize
        ensures { result ≡ (meaning self.now).count };

    // How many marks stand.
    fn marks(&self) -> usize
        ensures { result ≡ (meaning self.now).marks };

    // How many slots a sheet names.
    fn arity(&self, sheet: usize) -> Result<usize, BinderRefusal>
        ensures { numbered result ≡ arity_of (meaning self.now) sheet };

    // The slot at a position of a sheet's scope.
    fn slot_at(&self, sheet: usize, position: usize) -> Result<usize, BinderRefusal>
        ensures { numbered result ≡ slot_at (meaning self.now) sheet position };

    // Shows a sheet a box: closes the options of its scope that no kept and fitting list holds.
    fn show(&mut self, sheet: usize, slate: &mut OptionBox) -> Result<(), BinderRefusal>
        ensures { MatchResult result (λ _. (sheet < (meaning self.old).count) × Shown (meaning self.old) (meaning self.new) sheet slate.old.cells slate.new.cells)
            (λ e. (number_of e ≡ 31) × ((meaning self.old).count ≤ sheet) × (self.new ≡ self.old) × (slate.new ≡ slate.old)) };

    // Saves what each sheet keeps.
    fn mark(&mut self) -> Result<(), BinderRefusal>
        ensures { MatchResult result (λ _. ((meaning self.old).marks < 72) × Noted (meaning self.old) (meaning self.new))
            (λ e. (number_of e ≡ 32) × (72 ≤ (meaning self.old).marks) × (self.new ≡ self.old)) };

    // Drops the newest mark: each sheet keeps again what it kept then.
    fn undo(&mut self) -> Result<(), BinderRefusal>
        ensures { MatchResult result (λ _. Undone (meaning self.old) (meaning self.new))
            (λ e. (number_of e ≡ 33) × ((meaning self.old).marks ≡ 0) × (self.new ≡ self.old)) };
}
