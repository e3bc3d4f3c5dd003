// One line of a session. Each function here matches on whether the session holds a planner or a walk: these are
// two types with calls of their own, and no switch on a step.
ghost use Rattle.std.specs.Prelude.{ℕ, Decides};
ghost use Rattle.session.specs.Running.{Crosses, Crossed, Replied};

use crate::inside::inside;
use crate::outside::outside;
use crate::state::Session;
use binder::binders::Binder;
use subject::answer::Reply;
use subject::call::Call;

impl<B: Binder> Session<B> {
    // Whether a line is a begin outside walks, or an end in one.
    pub(crate) fn crosses(&self, line: Option<Call>) -> bool
        ensures { Decides result (Crosses self.now line) }
    {
        match self {
            Session::Outside(_) => line == Some(Call::Begin),
            Session::Inside(_) => line == Some(Call::End),
        }
    }

    // Makes that begin or end.
    pub(crate) fn cross(self) -> Session<B>
        ensures { Crossed B.Binder.meaning self result }
    {
        match self {
            Session::Outside(planner) => Session::Inside(planner.begin()),
            Session::Inside(walk) => Session::Outside(walk.end()),
        }
    }

    // Replies to any other line.
    pub(crate) fn reply(&mut self, line: Option<Call>, memory: &mut [u8]) -> Reply
        ensures { (Crosses self.old line → ⊥) → Replied B.Binder.meaning line result self.old self.new memory.old memory.new }
    {
        match self {
            Session::Outside(planner) => outside(planner, line),
            Session::Inside(walk) => inside(walk, line, memory),
        }
    }
}
