// A planner that is given one line after another, in walks and outside them.
#![tactic(auto)]

mod inside;
mod line;
mod outside;
pub mod run;
pub mod state;
