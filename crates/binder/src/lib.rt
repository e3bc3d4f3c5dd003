// The interface of binders, and two binders side by side as one.
#![tactic(auto)]

pub mod binders;
pub mod clear;
pub mod join;
pub mod laws;
pub mod marks;
pub mod refusal;
