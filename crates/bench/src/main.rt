// Does one kind of a planner's work again and again, and prints how many answers there were and a number that
// depends on all of them. The first argument names the work, the second says how often; without any, each
// kind is done once. A name with `-rows` behind it reads the rows of that work's catalogue instead, once each time.
#![tactic(auto)]

mod files;
mod work;

use anyhow::anyhow;
use catalogue::checked::Catalogue;
use checker::check;
use samples::draft::Draft;
use std::alloc::{AllocError, Global};
use std::env;
use work::{Tally, read, screen, walk};

// The kinds of work.
#[derive(Clone, Copy)]
enum Job {
    Chain,
    LongChain,
    Screen,
    Columns,
    DeadEnds,
    Bars,
    Loads,
}

const ALL: [(&str, Job); 7] = [
    ("chain", Job::Chain),
    ("long-chain", Job::LongChain),
    ("screen", Job::Screen),
    ("columns", Job::Columns),
    ("dead-ends", Job::DeadEnds),
    ("bars", Job::Bars),
    ("loads", Job::Loads),
];

fn file(job: Job, heap: Global) -> Result<Draft, AllocError> {
    match job {
        Job::Chain => files::chain(heap, 24),
        Job::LongChain => files::chain(heap, 48),
        Job::Screen => files::full(heap),
        Job::Columns => files::columns(heap),
        Job::DeadEnds => files::dead_ends(heap),
        Job::Bars => files::bars(heap),
        Job::Loads => files::loads(heap),
    }
}

fn done(job: Job, catalogue: &Catalogue, count: u32) -> Tally {
    let planner = plain::open(catalogue);
    match job {
        Job::Screen => screen(planner, count),
        _ => walk(planner, count.saturating_mul(1000)),
    }
}

fn show(rt: &HostRuntime, name: &str, job: Job, rows: bool, count: u32) -> anyhow::Result<()> {
    let draft = file(job, rt.alloc())?;
    let mut catalogue = Catalogue::built_in();
    if let Err(fault) = check(draft.as_slice(), &mut catalogue) {
        return Err(anyhow!("{fault}"));
    }
    let tally = if rows {
        read(&catalogue, count)
    } else {
        done(job, &catalogue, count)
    };
    let answers = if rows {
        u64::from(count)
    } else {
        tally.answers
    };
    let checksum = tally.checksum;
    let what = if rows { "readings" } else { "answers" };
    println!(rt; "{name}: {answers} {what}, checksum {checksum}")?;
    Ok(())
}

fn run(rt: &HostRuntime) -> anyhow::Result<()> {
    let mut words = env::args(rt)?.skip(1);
    let Some(word) = words.next() else {
        for (name, job) in ALL {
            show(rt, name, job, false, 1)?;
            show(rt, name, job, true, 1)?;
        }
        return Ok(());
    };
    let count = match words.next() {
        Some(number) => number.parse::<u32>()?,
        None => 1,
    };
    let name = word.as_str();
    let (name, rows) = match name.strip_suffix("-rows") {
        Some(name) => (name, true),
        None => (name, false),
    };
    for (known, job) in ALL {
        if known == name {
            return show(rt, name, job, rows, count);
        }
    }
    Err(anyhow!("no such work"))
}

fn main(rt: HostRuntime) -> anyhow::Result<()> {
    run(&rt)
}
