// The plain opening: a planner on all sheets of a catalogue.
#![tactic(auto)]

ghost use Rattle.std.specs.Prelude.{[]};
ghost use Rattle.planner.specs.States.{After};
ghost use Rattle.plain.specs.Plain.{problem_in, meaning_of};

use bar::Bar;
use binder::join::Join;
use catalogue::checked::Catalogue;
use fit::Fit;
use load::Load;
use planner::state::Planner;

// The sheets of a catalogue as one binder: its fit sheets, then its bar sheets, then its load sheets.
pub type AllSheets<'a> = Join<Join<Fit<'a>, Bar<'a>>, Load<'a>>;

// Opens a planner on the slots of a checked catalogue and all its sheets.
pub fn open<'a>(catalogue: &Catalogue<'a>) -> Planner<AllSheets<'a>>
    ensures { After meaning_of (problem_in catalogue.now.bytes.now) [] result }
{
    let fit = Fit::new(catalogue);
    let bar = Bar::new(catalogue);
    let load = Load::new(catalogue);
    Planner::open(catalogue, Join::new(Join::new(fit, bar), load))
}
