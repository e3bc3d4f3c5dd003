// Explores a box for plans, depth first and so in dictionary order, over any binder.
#![tactic(auto)]

mod lay;
mod moves;
pub mod outcome;
mod rewind;
pub mod stack;
mod turns;
