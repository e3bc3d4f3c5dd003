// The lines of a session outside walks.
ghost use Rattle.std.specs.Prelude.{List, ℕ, Some, ◌≢◌};
ghost use Rattle.subject.specs.declared.call.Call.TheVariants.{Begin};
ghost use Rattle.session.specs.Running.{Replied};
ghost use Rattle.session.specs.declared.state.Session.TheVariants.{Outside};

use binder::binders::Binder;
use planner::state::Planner;
use subject::answer::{Answer, Reply};
use subject::call::Call;
use subject::denial::Denial;

// Replies to a line that is no begin.
pub(crate) fn outside<B: Binder>(planner: &mut Planner<B>, line: Option<Call>) -> Reply
    ensures { (m : List ℕ) → line ≢ Some Begin → Replied B.Binder.meaning line result (Outside planner.old) (Outside planner.new) m m }
{
    match line {
        Some(Call::Try(slot, option)) => Ok(Answer::Count(planner.try_option(slot, option)?)),
        Some(Call::Strike(slot, option)) => Ok(Answer::Count(planner.strike(slot, option)?)),
        Some(Call::Back) => Ok(Answer::Count(planner.back()?)),
        Some(Call::Look(slot)) => Ok(Answer::Options(planner.look(slot)?)),
        _ => Err(Denial::NotPossible),
    }
}
