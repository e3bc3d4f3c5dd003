// Runs of lines: the law of every log stands here.
ghost use Rattle.std.specs.Prelude.{◌≡◌, ℕ, min, List, [], length};
ghost use Rattle.subject.specs.Problem.{Problem};
ghost use Rattle.subject.specs.Logs.{Log};
ghost use Rattle.planner.specs.Opening.{slots_in, posed};
ghost use Rattle.planner.specs.States.{After};
ghost use Rattle.session.specs.Law.{Led, Ran};
ghost use Rattle.session.specs.Runs.{Kept};
ghost use Rattle.session.specs.declared.state.Session.TheVariants.{Outside};

use crate::state::Session;
use binder::binders::Binder;
use catalogue::checked::Catalogue;
use planner::state::Planner;
use subject::answer::{Answer, Reply};
use subject::call::Call;

impl<B: Binder> Session<B> {
    // A session outside walks with a planner that was opened: wherever calls have led the planner, they have led the session.
    pub fn of(planner: Planner<B>) -> Session<B>
        ensures is { result ≡ Outside planner }
        ensures led { (P : Problem) (L : Log) → After B.Binder.meaning P L planner → Led B.Binder.meaning P L result }
    {
        Session::Outside(planner)
    }

    // Opens a planner on the slots of a checked catalogue and a binder, outside walks.
    pub fn open(catalogue: &Catalogue, binder: B) -> Session<B>
        ensures { Led B.Binder.meaning (posed (slots_in catalogue.now.bytes.now) (B.Binder.meaning binder)) [] result }
    {
        Session::of(Planner::open(catalogue, binder))
    }

    // Replies to one line after another, as many as there are both lines and replies. A line is a call, or none
    // where it has another form.
    pub fn run(
        mut self,
        lines: &[Option<Call>],
        replies: &mut [Reply],
        memory: &mut [u8],
    ) -> Session<B>
        ensures law { (P : Problem) (L : Log) → Led B.Binder.meaning P L self → Ran B.Binder.meaning P L lines.now replies.new (min (length lines.now) (length replies.old)) (length memory.old) result }
        ensures kept { Kept (min (length lines.now) (length replies.old)) replies.old replies.new memory.old memory.new }
    {
        let count = lines.len().min(replies.len());
        // A reply is written by its number: of what is written through `iter_mut().zip(..)` a proof knows nothing, and
        // with `iter_mut().enumerate()` it is the line that has to be taken by its number.
        for (at, line) in lines[..count].iter().enumerate() {
            replies[at] = if self.crosses(*line) {
                self = self.cross();
                Ok(Answer::Done)
            } else {
                self.reply(*line, memory)
            };
        }
        self
    }
}

// Opens a planner and replies to the lines, as many as there are both lines and replies. What is said of every
// log stands here whole.
pub fn replay<B: Binder>(
    catalogue: &Catalogue,
    binder: B,
    lines: &[Option<Call>],
    replies: &mut [Reply],
    memory: &mut [u8],
) -> Session<B>
    ensures law { Ran B.Binder.meaning (posed (slots_in catalogue.now.bytes.now) (B.Binder.meaning binder)) [] lines.now replies.new (min (length lines.now) (length replies.old)) (length memory.old) result }
    ensures kept { Kept (min (length lines.now) (length replies.old)) replies.old replies.new memory.old memory.new }
{
    Session::open(catalogue, binder).run(lines, replies, memory)
}
