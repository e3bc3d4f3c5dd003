// The sheets of one make, taken from a checked catalogue, and what the makes of binders share.
#![tactic(auto)]

pub mod closing;
pub mod scope;
pub mod sheet;
pub mod table;
pub mod taking;
