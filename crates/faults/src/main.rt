// Checks small files, each at the edge of one rule, and prints what the check answers: first the rules
// one by one, then records that break several, then what a catalogue holds after a check. The numbers of checks are
// those of docs/FORMAT.md. Raw records are malformed on purpose, so they are written byte by byte.
#![tactic(auto)]

mod bases;
mod case;
mod ends;
mod example;
mod held;
mod limits;
mod order;
mod places;
mod records;
mod rows;
mod scopes;
mod slots;
mod weights;

use std::io;

fn main(rt: HostRuntime) -> io::Result<()> {
    records::run(&rt)?;
    places::run(&rt)?;
    limits::run(&rt)?;
    slots::run(&rt)?;
    scopes::run(&rt)?;
    rows::run(&rt)?;
    weights::run(&rt)?;
    ends::run(&rt)?;
    order::run(&rt)?;
    example::run(&rt)?;
    held::run(&rt)
}
