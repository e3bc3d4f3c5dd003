// Runs a log on a planner, and counts where a reply differs from what is wanted.
use crate::logs::Log;
use crate::reckon::Wanted;
use binder::binders::Binder;
use planner::state::Planner;
use session::state::Session;
use std::alloc::{AllocError, Global};
use subject::denial::Denial;

// What was compared, and what differed.
#[derive(Clone, Copy, Default)]
pub struct Tally {
    pub catalogues: u32,
    pub lines: u32,
    pub plans: u32,
    pub differences: u32,
}

// What stands in a plan memory at first.
const MARK: u8 = 0xEE;

impl Tally {
    fn note(&mut self, same: bool) {
        if !same {
            self.differences = self.differences.wrapping_add(1);
        }
    }

    // Compares every reply, and at the end the plan memory.
    pub fn compare<B: Binder + Drop>(
        &mut self,
        heap: Global,
        planner: Planner<B>,
        slots: usize,
        memory: usize,
        log: &Log,
    ) -> Result<(), AllocError> {
        let mut bytes = Vec::from_elem(heap, MARK, memory)?;
        let mut wanted_bytes = Vec::from_elem(heap, MARK, memory)?;
        let mut replies = Vec::from_elem(heap, Err(Denial::NotPossible), log.lines.len())?;
        let _ = Session::Outside(planner).run(&log.lines, &mut replies, &mut bytes);
        for (reply, wanted) in replies.iter().zip(&log.wanted) {
            self.lines = self.lines.wrapping_add(1);
            self.note(wanted.is(reply, slots));
            if let Wanted::Plan(plan) = wanted {
                self.plans = self.plans.wrapping_add(1);
                for (byte, option) in wanted_bytes.iter_mut().zip(plan).take(slots) {
                    *byte = *option;
                }
            }
        }
        self.note(bytes.as_slice() == wanted_bytes.as_slice());
        Ok(())
    }
}
