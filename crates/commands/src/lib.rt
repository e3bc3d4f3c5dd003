// The lines that a program reads become calls of a planner.
#![tactic(auto)]

mod find;
pub mod lines;
pub mod parse;
#[cfg(test)]
mod tests;
