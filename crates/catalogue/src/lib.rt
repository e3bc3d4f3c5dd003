// A checked catalogue: what the format means, and what an accepted file shows of its slots and sheets.
#![tactic(auto)]

mod access;
pub mod checked;
pub mod counts;
pub mod fault;
pub mod kind;
pub mod make;
mod sheet_scan;
pub mod view;
pub mod wording;
