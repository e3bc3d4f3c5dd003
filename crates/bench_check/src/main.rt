// Checks two large files many times over, so that the time of a check can be measured from outside.
// The first argument says how often, and a second may name one of the files.
#![tactic(auto)]

use anyhow::anyhow;
use catalogue::checked::Catalogue;
use catalogue::counts::Counts;
use catalogue::fault::Fault;
use checker::check;
use samples::draft::Draft;
use samples::large::{largest, one_sheet};
use std::{env, io};

const DEFAULT_ROUNDS: u32 = 3;

// The byte that says how many options a slot has of which only the first four are named, if any: in the
// first file the last slot, which no sheet names, in the second the sixth.
const LARGEST_PLACE: usize = 95;

const SHEET_PLACE: usize = 11;

// How many options that slot has in a round, so that no two rounds in a row check the same bytes.
fn options_in(round: u32) -> u8 {
    4 + (round % 29) as u8
}

fn checked(file: &[u8]) -> Result<Counts, Fault> {
    let mut held = Catalogue::built_in();
    check(file, &mut held)
}

// An answer as a number.
fn worth(answer: Result<Counts, Fault>) -> u64 {
    match answer {
        Ok(counts) => {
            let sheets = u64::from(counts.slots) * 100 + u64::from(counts.sheets);
            sheets * 10_000 + u64::from(counts.rows)
        }
        Err(fault) => u64::from(fault.number),
    }
}

fn bench(
    rt: &HostRuntime,
    name: &str,
    mut file: Draft,
    place: usize,
    rounds: u32,
) -> io::Result<()> {
    let size = file.as_slice().len();
    let mut answer = checked(file.as_slice());
    let mut sum = worth(answer);
    for round in 1..rounds {
        file = file.with(place, options_in(round));
        answer = checked(file.as_slice());
        sum = sum.wrapping_mul(31).wrapping_add(worth(answer));
    }
    match answer {
        Ok(counts) => println!(rt;
            "{name}: {size} bytes, {rounds} rounds, {counts}, checksum {sum}"
        ),
        Err(fault) => println!(rt;
            "{name}: {size} bytes, {rounds} rounds, {fault}, checksum {sum}"
        ),
    }
}

// As much of everything as a catalogue may have.
fn bench_largest(rt: &HostRuntime, rounds: u32) -> io::Result<()> {
    bench(rt, "largest", largest(rt.alloc())?, LARGEST_PLACE, rounds)
}

// All rows in one sheet, which makes the scan for a row that stood before the longest.
fn bench_sheet(rt: &HostRuntime, rounds: u32) -> io::Result<()> {
    bench(
        rt,
        "sheet",
        one_sheet(rt.alloc(), 4096)?,
        SHEET_PLACE,
        rounds,
    )
}

fn bench_one(rt: &HostRuntime, name: &str, rounds: u32) -> anyhow::Result<()> {
    match name {
        "largest" => bench_largest(rt, rounds)?,
        "sheet" => bench_sheet(rt, rounds)?,
        _ => return Err(anyhow!("the file is `largest` or `sheet`")),
    }
    Ok(())
}

fn run(rt: &HostRuntime) -> anyhow::Result<()> {
    let mut words = env::args(rt)?.skip(1);
    let rounds = match words.next() {
        Some(word) => word.parse::<u32>()?.max(1),
        None => DEFAULT_ROUNDS,
    };
    if let Some(name) = words.next() {
        return bench_one(rt, name.as_str(), rounds);
    }
    bench_largest(rt, rounds)?;
    bench_sheet(rt, rounds)?;
    Ok(())
}

fn main(rt: HostRuntime) -> anyhow::Result<()> {
    run(&rt)
}
