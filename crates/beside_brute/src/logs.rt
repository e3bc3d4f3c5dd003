// Lines for a planner, the same in each run, and what they have to be answered.
use crate::reckon::{Reckoner, Wanted};
use samples::random::Random;
use std::alloc::{AllocError, Global};
use subject::call::Call;

#[derive(Drop)]
pub struct Log {
    pub lines: Vec<Option<Call>>,
    pub wanted: Vec<Wanted>,
}

// A slot of so many or one past the last, and an option that it may have.
fn decision(random: &mut Random, slots: u8) -> (usize, usize) {
    let slot = random.below(slots.saturating_add(1));
    let option = random.below(4);
    (slot as usize, option as usize)
}

fn line_outside(random: &mut Random, slots: u8) -> Option<Call> {
    let (slot, option) = decision(random, slots);
    match random.below(100) {
        0..=34 => Some(Call::Try(slot, option)),
        35..=49 => Some(Call::Strike(slot, option)),
        50..=62 => Some(Call::Back),
        63..=77 => Some(Call::Look(slot)),
        78..=90 => Some(Call::Begin),
        91..=94 => Some(Call::Next),
        95..=97 => Some(Call::End),
        _ => None,
    }
}

fn line_inside(random: &mut Random, slots: u8) -> Option<Call> {
    let (slot, option) = decision(random, slots);
    match random.below(100) {
        0..=79 => Some(Call::Next),
        80..=91 => Some(Call::End),
        92..=94 => Some(Call::Try(slot, option)),
        95..=96 => Some(Call::Look(slot)),
        97 => Some(Call::Back),
        98 => Some(Call::Begin),
        _ => None,
    }
}

impl Log {
    pub fn new(heap: Global) -> Log {
        Log {
            lines: Vec::new(heap),
            wanted: Vec::new(heap),
        }
    }

    // One line more, with what it has to be answered.
    pub fn put(
        &mut self,
        reckoner: &mut Reckoner,
        memory: usize,
        line: Option<Call>,
    ) -> Result<(), AllocError> {
        let wanted = reckoner.answer(line, memory)?;
        self.lines.push(line)?;
        self.wanted.push(wanted)?;
        Ok(())
    }

    // So many lines more.
    pub fn put_any(
        &mut self,
        reckoner: &mut Reckoner,
        memory: usize,
        random: &mut Random,
        slots: u8,
        many: u32,
    ) -> Result<(), AllocError> {
        for _ in 0..many {
            let line = if reckoner.is_walking() {
                line_inside(random, slots)
            } else {
                line_outside(random, slots)
            };
            self.put(reckoner, memory, line)?;
        }
        Ok(())
    }
}
