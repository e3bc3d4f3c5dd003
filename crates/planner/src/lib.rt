// The planner: for each slot of a catalogue, the options that can still be had while decisions stand; and walks
// through all plans that fit.
#![tactic(auto)]

pub mod calls;
mod marks;
pub mod opening;
pub mod state;
pub mod step;
pub mod walk;
