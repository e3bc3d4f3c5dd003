// What a walk is at, and what its next step gives.

// A walk has given no plan yet, has given one, or has none left.
#[derive(Clone, Copy, PartialEq, Debug)]
pub enum State {
    Fresh,
    AtPlan,
    Spent,
}

// The next plan was written to the plan memory, with so many options, or there is none left. The plan itself goes to the
// memory that is lent, so that a step holds none.
#[derive(Clone, Copy, PartialEq, Debug)]
pub enum Step {
    Plan(usize),
    NoPlan,
}
