// What a planner is about: slots, options, sheets, boxes, plans, calls and answers. The definitions stand in
// specs/; here are the calls and answers as values, and the laws that the definitions have by themselves.
#![tactic(auto)]

pub mod answer;
pub mod call;
mod chosen;
pub mod denial;
pub mod laws;
pub mod plan;
pub mod refusal;
pub mod wording;
