// Runs logs on planners over many small catalogues, and compares every answer, every plan and the plan memory with what
// plain enumeration of boxes and plans says.
#![tactic(auto)]

mod compare;
mod enumerate;
mod limits;
mod logs;
mod made;
mod problem;
mod reckon;

use anyhow::anyhow;
use bar::Bar;
use binder::binders::Binder;
use binder::join::Join;
use catalogue::checked::Catalogue;
use catalogue::counts::Counts;
use catalogue::fault::Fault;
use catalogue::make::Make;
use checker::check;
use compare::Tally;
use enumerate::Enumerated;
use fit::Fit;
use load::Load;
use logs::Log;
use made::{Shape, made};
use planner::state::Planner;
use problem::Model;
use reckon::{Reckoner, Wanted};
use samples::random::Random;
use std::alloc::Global;
use std::io;

const SMALL: Shape = Shape {
    slots: 3,
    options: 3,
    sheets: 4,
    scope: 3,
    heaviest: 100,
    make: None,
};

// A log of so many lines on a planner, with a plan memory that holds a plan and some bytes more, or one too short.
fn any_log<B: Binder + Drop>(
    heap: Global,
    planner: Planner<B>,
    model: &Model,
    random: &mut Random,
    tally: &mut Tally,
) -> anyhow::Result<()> {
    let known = Enumerated::of(heap, model)?;
    let slots = model.sizes.len();
    let memory = if random.below(8) == 0 {
        slots.saturating_sub(1)
    } else {
        slots.saturating_add(2)
    };
    let mut log = Log::new(heap);
    let mut reckoner = Reckoner::new(heap, &known);
    log.put_any(
        &mut reckoner,
        memory,
        random,
        u8::try_from(slots).unwrap_or(48),
        240,
    )?;
    tally.compare(heap, planner, slots, memory, &log)?;
    Ok(())
}

fn tell(rt: &HostRuntime, what: &str, tally: Tally) -> io::Result<()> {
    let catalogues = tally.catalogues;
    let lines = tally.lines;
    let plans = tally.plans;
    let differences = tally.differences;
    println!(rt;
        "{what}: {catalogues} catalogues, {lines} lines, {plans} plans, {differences} differences"
    )
}

// Every file that is made here is accepted.
fn accepted(answer: Result<Counts, Fault>) -> anyhow::Result<()> {
    match answer {
        Ok(_) => Ok(()),
        Err(fault) => Err(anyhow!("a file was refused: {fault}")),
    }
}

// Which binder a planner is opened on.
#[derive(Clone, Copy)]
enum Opening {
    Plain,
    Turned,
    One(Make),
}

fn on_one(
    heap: Global,
    opening: Opening,
    model: &Model,
    random: &mut Random,
    tally: &mut Tally,
) -> anyhow::Result<()> {
    let file = model.file(heap)?;
    let mut held = Catalogue::built_in();
    tally.catalogues = tally.catalogues.wrapping_add(1);
    accepted(check(file.as_slice(), &mut held))?;
    match opening {
        Opening::Plain => any_log(heap, plain::open(&held), model, random, tally),
        Opening::Turned => {
            let binder = Join::new(
                Load::new(&held),
                Join::new(Bar::new(&held), Fit::new(&held)),
            );
            any_log(heap, Planner::open(&held, binder), model, random, tally)
        }
        Opening::One(Make::Fit) => any_log(
            heap,
            Planner::open(&held, Fit::new(&held)),
            model,
            random,
            tally,
        ),
        Opening::One(Make::Bar) => any_log(
            heap,
            Planner::open(&held, Bar::new(&held)),
            model,
            random,
            tally,
        ),
        Opening::One(Make::Load) => any_log(
            heap,
            Planner::open(&held, Load::new(&held)),
            model,
            random,
            tally,
        ),
    }
}

// A planner of so many slots on the sheets of another catalogue, which may name a slot beyond the last.
fn on_other(
    rt: &HostRuntime,
    what: &str,
    shape: Shape,
    slots: u8,
    many: u32,
) -> anyhow::Result<()> {
    let heap = rt.alloc();
    let mut tally = Tally::default();
    let mut random = Random::new(many);
    for _ in 0..many {
        let other = made(heap, &mut random, shape)?;
        let few = made(
            heap,
            &mut random,
            Shape {
                slots,
                sheets: 1,
                ..shape
            },
        )?;
        let (file, other_file) = (few.file(heap)?, other.file(heap)?);
        let mut held = Catalogue::built_in();
        let mut other_held = Catalogue::built_in();
        tally.catalogues = tally.catalogues.wrapping_add(1);
        accepted(check(file.as_slice(), &mut held))?;
        accepted(check(other_file.as_slice(), &mut other_held))?;
        let tables = Join::new(Fit::new(&other_held), Bar::new(&other_held));
        let planner = Planner::open(&held, Join::new(tables, Load::new(&other_held)));
        let model = Model {
            sizes: few.sizes,
            sheets: other.sheets,
        };
        any_log(heap, planner, &model, &mut random, &mut tally)?;
    }
    tell(rt, what, tally)?;
    Ok(())
}

// Seventeen tries, of which the last is refused, and then any lines, over as many slots and sheets as there can be.
fn on_full(rt: &HostRuntime) -> anyhow::Result<()> {
    let heap = rt.alloc();
    let model = limits::full(heap)?;
    let file = model.file(heap)?;
    let mut held = Catalogue::built_in();
    accepted(check(file.as_slice(), &mut held))?;
    let known = Enumerated::of(heap, &model)?;
    let mut reckoner = Reckoner::new(heap, &known);
    let mut log = Log::new(heap);
    limits::put_tries(&mut log, &mut reckoner, 48)?;
    log.put_any(&mut reckoner, 48, &mut Random::new(7), 48, 400)?;
    let refused = log
        .wanted
        .iter()
        .filter(|wanted| matches!(wanted, Wanted::No(24)))
        .count();
    let mut tally = Tally::default();
    tally.catalogues = 1;
    tally.compare(heap, plain::open(&held), 48, 48, &log)?;
    tell(rt, "48 slots and 64 sheets", tally)?;
    println!(rt; "tries refused there since sixteen stand: {refused}")?;
    Ok(())
}

fn on_many(
    rt: &HostRuntime,
    what: &str,
    opening: Opening,
    shape: Shape,
    many: u32,
) -> anyhow::Result<()> {
    let mut tally = Tally::default();
    let mut random = Random::new(many);
    for _ in 0..many {
        let model = made(rt.alloc(), &mut random, shape)?;
        on_one(rt.alloc(), opening, &model, &mut random, &mut tally)?;
    }
    tell(rt, what, tally)?;
    Ok(())
}

fn run(rt: &HostRuntime) -> anyhow::Result<()> {
    let wide = Shape {
        slots: 4,
        sheets: 6,
        scope: 6,
        ..SMALL
    };
    let long = Shape {
        slots: 8,
        options: 2,
        sheets: 5,
        scope: 8,
        ..SMALL
    };
    let heavy = Shape {
        heaviest: 30_000,
        make: Some(Make::Load),
        ..SMALL
    };
    on_many(rt, "three slots", Opening::Plain, SMALL, 600)?;
    on_many(rt, "four slots", Opening::Plain, wide, 400)?;
    on_many(rt, "eight slots, long scopes", Opening::Plain, long, 120)?;
    on_many(
        rt,
        "the makes joined the other way round",
        Opening::Turned,
        wide,
        240,
    )?;
    on_many(
        rt,
        "fit sheets alone",
        Opening::One(Make::Fit),
        Shape {
            make: Some(Make::Fit),
            ..wide
        },
        240,
    )?;
    on_many(
        rt,
        "bar sheets alone",
        Opening::One(Make::Bar),
        Shape {
            make: Some(Make::Bar),
            ..wide
        },
        240,
    )?;
    on_many(
        rt,
        "load sheets alone",
        Opening::One(Make::Load),
        Shape {
            make: Some(Make::Load),
            ..wide
        },
        240,
    )?;
    on_many(rt, "heavy loads", Opening::Plain, heavy, 240)?;
    on_other(rt, "sheets of a catalogue with more slots", SMALL, 2, 240)?;
    on_full(rt)
}

fn main(rt: HostRuntime) -> anyhow::Result<()> {
    run(&rt)
}
