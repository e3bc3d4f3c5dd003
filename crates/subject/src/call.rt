// The calls that can be made of a planner, as values.

// Try and Strike have a slot and an option, Look has a slot. Next is made with a plan memory beside it.
#[derive(Clone, Copy, PartialEq, Debug)]
pub enum Call {
    Try(usize, usize),
    Strike(usize, usize),
    Back,
    Look(usize),
    Begin,
    Next,
    End,
}
