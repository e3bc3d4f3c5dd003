// What calls are answered, as values.
use crate::denial::Denial;
use crate::plan::Plan;

// Try, strike and back answer how many options are open in all slots; look a number whose bit o is one exactly
// where option o of the slot is open; next a plan, or that there is none left; begin and end that they are done.
// That there is none is a case and no Option in Plan, which would be no plainer: logs have a case for each of the two.
#[derive(Clone, Copy)]
pub enum Answer {
    Count(u32),
    Options(u32),
    Plan(Plan),
    NoPlan,
    Done,
}

// What a line or a call comes to.
pub type Reply = Result<Answer, Denial>;
