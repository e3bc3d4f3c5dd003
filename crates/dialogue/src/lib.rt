// What the program reads and writes, over any reader and any writer: it says what a file holds, and answers the lines of an
// input.
#![tactic(auto)]

pub mod batch;
pub mod program;
pub mod serve;
