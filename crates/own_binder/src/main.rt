// Opens planners of one slot with one option on a binder of its own, whose one sheet names a slot of any number, and prints
// what they answer. The planner is dry where there is no such slot.
#![tactic(auto)]

mod asking;
mod one_sheet;

use asking::ask;
use catalogue::checked::Catalogue;
use std::io;
use subject::refusal::Refusal;

fn tell(rt: &HostRuntime, what: &str, answer: Result<u32, Refusal>) -> io::Result<()> {
    match answer {
        Ok(number) => println!(rt; "{what} {number}"),
        Err(refusal) => {
            let number = refusal.number();
            println!(rt; "{what} no {number}")
        }
    }
}

fn main(rt: HostRuntime) -> io::Result<()> {
    let catalogue = Catalogue::built_in();
    for slot in [0, 1, 47, 48, 63, 64, 1_000_000, usize::MAX] {
        let (looked, tried) = ask(&catalogue, slot);
        println!(&rt; "slot {slot}")?;
        tell(&rt, "look", looked)?;
        tell(&rt, "try", tried)?;
    }
    Ok(())
}
