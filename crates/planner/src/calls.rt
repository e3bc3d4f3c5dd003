// The planner's calls: try, strike, back and look.
ghost use Rattle.std.specs.Prelude.{◌≡◌, MatchResult};
ghost use Rattle.subject.specs.Refusals.{number_of};
ghost use Rattle.planner.specs.Answers.{try_entry, strike_entry, back_entry, look_entry};
ghost use Rattle.planner.specs.States.{Carries, Found, Shut, Counted};

use crate::marks::{restore, save};
use crate::state::Planner;
use binder::binders::Binder;
use boxes::slots::slot_alone;
use settle::settle;
use subject::refusal::Refusal;

// How many tries may stand.
const TRIES: usize = 16;

// A slot and an option come as two numbers here, since that is what a caller gives: a struct of them would have to be
// made for each call.
impl<B: Binder> Planner<B> {
    // The option, if there is one and it is open; else the first reason why it cannot be had.
    fn open_option(&self, slot: usize, option: usize) -> Result<u8, Refusal>
        ensures { MatchResult result (λ o. (o ≡ option) × Found self.now.slots self.now.slate.cells slot option) (λ e. Shut self.now.slots self.now.slate.cells slot option (number_of e)) }
    {
        if slot >= self.slots.count {
            return Err(Refusal::NoSlot);
        }
        if option >= self.slots.sizes[slot] as usize {
            return Err(Refusal::NoOption);
        }
        if !self.slate.is_open(slot, option as u8) {
            return Err(Refusal::NotOpen);
        }
        Ok(option as u8)
    }

    // Tries an option: closes every other option of its slot, and all that then has no support. Answers how many
    // options are open. At most sixteen tries stand at a time.
    pub fn try_option(&mut self, slot: usize, option: usize) -> Result<u32, Refusal>
        ensures law { Carries B.Binder.meaning (try_entry slot option result) self.old self.new }
        ensures counted { Counted result self.old self.new }
    {
        let option = self.open_option(slot, option)?;
        if self.depth >= TRIES {
            return Err(Refusal::TooManyTries);
        }
        save(&mut self.binder);
        let slate = self.slate;
        self.saved[self.depth] = slate;
        self.depth += 1;
        self.slate.fix(slot, option);
        settle(
            &mut self.binder,
            &self.reach,
            self.slots.count,
            slot_alone(slot),
            &mut self.slate,
        );
        let left = self.slate.count();
        Ok(left)
    }

    // Strikes an option: closes it, and all that then has no support. Answers how many options are open.
    pub fn strike(&mut self, slot: usize, option: usize) -> Result<u32, Refusal>
        ensures law { Carries B.Binder.meaning (strike_entry slot option result) self.old self.new }
        ensures counted { Counted result self.old self.new }
    {
        let option = self.open_option(slot, option)?;
        self.slate.close(slot, option);
        settle(
            &mut self.binder,
            &self.reach,
            self.slots.count,
            slot_alone(slot),
            &mut self.slate,
        );
        Ok(self.slate.count())
    }

    // Takes back the newest try and every strike behind it. Answers how many options are open.
    pub fn back(&mut self) -> Result<u32, Refusal>
        ensures law { Carries B.Binder.meaning (back_entry result) self.old self.new }
        ensures counted { Counted result self.old self.new }
    {
        if self.depth == 0 {
            return Err(Refusal::NoTry);
        }
        restore(&mut self.binder);
        let newest = self.depth - 1;
        self.depth = newest;
        let slate = self.saved[newest];
        self.slate = slate;
        Ok(slate.count())
    }

    // The open options of a slot: bit o is one exactly where option o is open.
    pub fn look(&self, slot: usize) -> Result<u32, Refusal>
        ensures { Carries B.Binder.meaning (look_entry slot result) self.now self.now }
    {
        if slot >= self.slots.count {
            return Err(Refusal::NoSlot);
        }
        let options = self.slate.cells[slot];
        Ok(options)
    }
}
