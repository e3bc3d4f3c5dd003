// What each line has to be answered, reckoned from a problem and the lines before it by enumeration alone.
use crate::enumerate::Enumerated;
use std::alloc::{AllocError, Global};
use subject::answer::{Answer, Reply};
use subject::call::Call;

#[derive(Clone, Copy)]
struct Decision {
    slot: usize,
    option: u8,
    tried: bool,
}

// What is wanted of a reply: a count, the bits of a look, a plan, that there is none, that it is done, or a number.
#[derive(Clone, Copy)]
pub enum Wanted {
    Count(u32),
    Options(u32),
    Plan([u8; 48]),
    NoPlan,
    Done,
    No(u8),
}

impl Wanted {
    // Whether a reply is the one wanted, of plans of so many slots.
    pub fn is(&self, reply: &Reply, slots: usize) -> bool {
        match (self, reply) {
            (Wanted::Count(wanted), Ok(Answer::Count(n))) => n == wanted,
            (Wanted::Options(wanted), Ok(Answer::Options(n))) => n == wanted,
            (Wanted::Plan(wanted), Ok(Answer::Plan(plan))) => plan.as_slice()
                == &wanted[..slots.min(48)],
            (Wanted::NoPlan, Ok(Answer::NoPlan)) => true,
            (Wanted::Done, Ok(Answer::Done)) => true,
            (Wanted::No(number), Err(denial)) => denial.number() == *number,
            _ => false,
        }
    }
}

#[derive(Drop)]
pub struct Reckoner<'a> {
    known: &'a Enumerated,
    decisions: Vec<Decision>,
    open: u64,
    // In a walk, how many plans of the list are behind it.
    walk: Option<usize>,
}

impl<'a> Reckoner<'a> {
    pub fn new(heap: Global, known: &'a Enumerated) -> Reckoner<'a> {
        Reckoner {
            known,
            decisions: Vec::new(heap),
            open: known.largest(known.every()),
            walk: None,
        }
    }

    pub fn is_walking(&self) -> bool {
        self.walk.is_some()
    }

    // The options that no decision forbids.
    fn within(&self) -> u64 {
        let mut left = self.known.every();
        for decision in &self.decisions {
            let bit = self.known.bit(decision.slot, decision.option);
            let forbidden = if decision.tried {
                self.known.slot(decision.slot) & !bit
            } else {
                bit
            };
            left &= !forbidden;
        }
        left
    }

    fn count(&mut self) -> Wanted {
        self.open = self.known.largest(self.within());
        Wanted::Count(self.open.count_ones())
    }

    fn tries(&self) -> usize {
        self.decisions
            .iter()
            .filter(|decision| decision.tried)
            .count()
    }

    fn decide(&mut self, slot: usize, option: usize, tried: bool) -> Result<Wanted, AllocError> {
        let Some(size) = self.known.sizes.get(slot).copied() else {
            return Ok(Wanted::No(21));
        };
        if option >= size as usize {
            return Ok(Wanted::No(22));
        }
        let option = (option & 0xFF) as u8;
        if self.open & self.known.bit(slot, option) == 0 {
            return Ok(Wanted::No(23));
        }
        if tried && self.tries() >= 16 {
            return Ok(Wanted::No(24));
        }
        self.decisions.push(Decision {
            slot,
            option,
            tried,
        })?;
        Ok(self.count())
    }

    fn back(&mut self) -> Wanted {
        if self.tries() == 0 {
            return Wanted::No(25);
        }
        for _ in 0..self.decisions.len() {
            if self.decisions.pop().is_some_and(|decision| decision.tried) {
                break;
            }
        }
        self.count()
    }

    fn look(&self, slot: usize) -> Wanted {
        if slot >= self.known.sizes.len() {
            return Wanted::No(21);
        }
        Wanted::Options(self.known.look(slot, self.open))
    }

    // The next plan behind those given.
    fn next(&mut self, from: usize, memory: usize) -> Wanted {
        if memory < self.known.sizes.len() {
            return Wanted::No(26);
        }
        let within = self.within();
        for (number, plan) in self.known.plans.iter().enumerate().skip(from) {
            if self.known.bits(plan) & !within == 0 {
                self.walk = Some(number.wrapping_add(1));
                return Wanted::Plan(*plan);
            }
        }
        self.walk = Some(self.known.plans.len());
        Wanted::NoPlan
    }

    // What a line is answered where the plan memory has so many bytes.
    pub fn answer(&mut self, line: Option<Call>, memory: usize) -> Result<Wanted, AllocError> {
        match (self.walk, line) {
            (None, Some(Call::Try(slot, option))) => self.decide(slot, option, true),
            (None, Some(Call::Strike(slot, option))) => self.decide(slot, option, false),
            (None, Some(Call::Back)) => Ok(self.back()),
            (None, Some(Call::Look(slot))) => Ok(self.look(slot)),
            (None, Some(Call::Begin)) => {
                self.walk = Some(0);
                Ok(Wanted::Done)
            }
            (Some(from), Some(Call::Next)) => Ok(self.next(from, memory)),
            (Some(_), Some(Call::End)) => {
                self.walk = None;
                Ok(Wanted::Done)
            }
            _ => Ok(Wanted::No(41)),
        }
    }
}
