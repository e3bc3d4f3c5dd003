// The lines of a session in a walk.
ghost use Rattle.std.specs.Prelude.{◌≡◌, ◌≢◌, ◌≤◌, length, take, Some};
ghost use Rattle.subject.specs.Wording.{chosen};
ghost use Rattle.subject.specs.declared.call.Call.TheVariants.{Next, End};
ghost use Rattle.session.specs.Running.{Replied};
ghost use Rattle.session.specs.declared.state.Session.TheVariants.{Inside};

use binder::binders::Binder;
use planner::state::Walk;
use planner::step::Step;
use subject::answer::{Answer, Reply};
use subject::call::Call;
use subject::denial::Denial;
use subject::plan::Plan;

// The first options of a memory as a plan.
fn plan_in(memory: &[u8], count: usize) -> Plan
    requires { (count ≤ length memory.now) × (count ≤ 48) }
    ensures { chosen result ≡ take count memory.now }
{
    let mut options = [0; 48];
    options[..count].copy_from_slice(&memory[..count]);
    Plan::new(options, count)
}

// Makes the call next.
fn step<B: Binder>(walk: &mut Walk<B>, memory: &mut [u8]) -> Reply
    ensures { Replied B.Binder.meaning (Some Next) result (Inside walk.old) (Inside walk.new) memory.old memory.new }
{
    match walk.next(memory)? {
        Step::Plan(count) => Ok(Answer::Plan(plan_in(memory, count))),
        Step::NoPlan => Ok(Answer::NoPlan),
    }
}

// Replies to a line that is no end.
pub(crate) fn inside<B: Binder>(walk: &mut Walk<B>, line: Option<Call>, memory: &mut [u8]) -> Reply
    ensures { line ≢ Some End → Replied B.Binder.meaning line result (Inside walk.old) (Inside walk.new) memory.old memory.new }
{
    match line {
        Some(Call::Next) => step(walk, memory),
        _ => Err(Denial::NotPossible),
    }
}
