// Opens a planner on a binder whose one sheet names a slot of any number, and asks it.
ghost use Rattle.std.specs.Prelude.{◌≡◌, ◌≤◌, length};
ghost use Rattle.subject.specs.Logs.{bits, refused};
ghost use Rattle.planner.specs.Answers.{counts, shows};
ghost use Rattle.planner.specs.Opening.{slots_in};

use crate::one_sheet::OneSheet;
use catalogue::checked::Catalogue;
use planner::state::Planner;
use subject::refusal::Refusal;

// What a look at slot 0 answers, and then a try of its option 0. Where the sheet names a slot beyond the planner's last, nothing
// is open.
pub fn ask(catalogue: &Catalogue, slot: usize) -> (Result<u32, Refusal>, Result<u32, Refusal>)
    ensures { length (slots_in catalogue.now.bytes.now) ≤ slot → (shows result.0 ≡ bits 0) × (counts result.1 ≡ refused 23) }
{
    let mut planner = Planner::open(catalogue, OneSheet::new(slot));
    let looked = planner.look(0);
    let tried = planner.try_option(0, 0);
    (looked, tried)
}
