// Catalogue files made to be checked: records one by one, and whole files at the limits.
#![tactic(auto)]

pub mod draft;
pub mod large;
pub mod random;
