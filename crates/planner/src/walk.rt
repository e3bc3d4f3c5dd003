// Walks through all plans that meet the sheets and the standing decisions, in dictionary order.
ghost use Rattle.std.specs.Prelude.{◌≡◌, ℕ, ◌≤◌, ◌∷◌, ◌++◌, length, take, drop};
ghost use Rattle.subject.specs.Problem.{Problem};
ghost use Rattle.subject.specs.Logs.{Log};
ghost use Rattle.planner.specs.Answers.{begin_entry, next_entry, end_entry, written, Sized};
ghost use Rattle.planner.specs.States.{After};
ghost use Rattle.planner.specs.Walks.{Walking, slots_of, plan_slots, Refused};

use crate::marks::save;
use crate::state::{Planner, Walk};
use crate::step::{State, Step};
use binder::binders::Binder;
use explore::outcome::Outcome;
use explore::stack::Stack;
use subject::refusal::Refusal;

// Writes the options of a plan over the front of a memory.
fn write_plan(options: &[u8], memory: &mut [u8])
    requires room { length options.now ≤ length memory.old }
    ensures { memory.new ≡ options.now ++ drop (length options.now) memory.old }
{
    memory[..options.len()].copy_from_slice(options);
}

impl<B: Binder> Planner<B> {
    // Begins a walk, which uses the planner up.
    pub fn begin(self) -> Walk<B>
        ensures { (P : Problem) (L : Log) → After B.Binder.meaning P L self → Walking B.Binder.meaning P (begin_entry ∷ L) result }
    {
        let stack = Stack::new(self.slate);
        let mut walk = Walk {
            planner: self,
            stack,
            state: State::Fresh,
        };
        // The mark is made where the planner lies in the walk, and undone there at the end, so that it is copied less often.
        save(&mut walk.planner.binder);
        walk
    }
}

impl<B: Binder> Walk<B> {
    // Goes on to the next plan and writes it to the memory, slot s's option to byte s; other bytes stay. With no
    // plan left it writes nothing, now and at each later call.
    pub fn next(&mut self, memory: &mut [u8]) -> Result<Step, Refusal>
        ensures law { (P : Problem) (L : Log) → Walking B.Binder.meaning P L self.old → Walking B.Binder.meaning P (next_entry (length memory.old) (take (plan_slots self.old) memory.new) result ∷ L) self.new }
        ensures wrote { memory.new ≡ written (plan_slots self.old) result memory.old memory.new }
        ensures sized { Sized (plan_slots self.old) result }
        ensures refused { Refused result (length memory.old) self.old self.new }
        ensures slots { slots_of self.new ≡ slots_of self.old }
    {
        let count = self.planner.slots.count;
        if memory.len() < count {
            return Err(Refusal::ShortMemory);
        }
        'turns: loop {
            let outcome = self
                .stack
                .turn(&mut self.planner.binder, &self.planner.reach, count);
            // The walk's state and the outcome are matched together, and the state is changed in place: a rule of the
            // project names this form.
            match (self.state, outcome) {
                (State::Spent, _) => return Ok(Step::NoPlan),
                (_, Outcome::Empty) => {
                    self.state = State::Spent;
                    return Ok(Step::NoPlan);
                }
                (_, Outcome::Found(plan)) => {
                    self.state = State::AtPlan;
                    write_plan(&plan[..count], memory);
                    return Ok(Step::Plan(count));
                }
                (_, Outcome::Dry) => {}
                (_, Outcome::Split) => {}
            }
        }
    }

    // Ends the walk and gives the planner back.
    pub fn end(self) -> Planner<B>
        ensures { (P : Problem) (L : Log) → Walking B.Binder.meaning P L self → After B.Binder.meaning P (end_entry ∷ L) result }
    {
        let mut walk = self;
        walk.stack.leave(&mut walk.planner.binder);
        walk.planner
    }
}
