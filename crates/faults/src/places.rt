// Fault 4: records that may not stand where they do.
use crate::bases::{fit_one, load_one, one_slot};
use crate::case::case;
use samples::draft::Draft;
use std::io;

// Slots stand before the first header.
fn misplaced_slots(rt: &HostRuntime) -> io::Result<()> {
    let heap = rt.alloc();
    case(rt, "a slot behind a header", fit_one(heap)?.slot(1)?)?;
    case(
        rt,
        "a slot behind a row",
        fit_one(heap)?.row(&[0])?.slot(1)?,
    )
}

// Rows stand under fit and bar headers.
fn misplaced_rows(rt: &HostRuntime) -> io::Result<()> {
    let heap = rt.alloc();
    case(rt, "a row before any slot", Draft::new(heap).row(&[0])?)?;
    case(rt, "a row before any header", one_slot(heap)?.row(&[0])?)?;
    case(rt, "a row under a load header", load_one(heap)?.row(&[0])?)?;
    let both = fit_one(heap)?.load(&[0], 10)?;
    case(
        rt,
        "a row under a load header behind a fit header",
        both.row(&[0])?,
    )
}

// Weights stand under load headers.
fn misplaced_weights(rt: &HostRuntime) -> io::Result<()> {
    let heap = rt.alloc();
    case(
        rt,
        "a weight before any header",
        one_slot(heap)?.weight(0, 0, 5)?,
    )?;
    case(
        rt,
        "a weight under a fit header",
        fit_one(heap)?.weight(0, 0, 5)?,
    )?;
    let bar = one_slot(heap)?.bar(&[0])?;
    case(rt, "a weight under a bar header", bar.weight(0, 0, 5)?)
}

fn well_placed(rt: &HostRuntime) -> io::Result<()> {
    let heap = rt.alloc();
    case(rt, "a row under a fit header", fit_one(heap)?.row(&[0])?)?;
    let bar = one_slot(heap)?.bar(&[0])?;
    case(rt, "a row under a bar header", bar.row(&[0])?)?;
    case(
        rt,
        "a weight under a load header",
        load_one(heap)?.weight(0, 0, 5)?,
    )?;
    let both = load_one(heap)?.fit(&[0])?;
    case(
        rt,
        "a row under a fit header behind a load header",
        both.row(&[0])?,
    )
}

pub fn run(rt: &HostRuntime) -> io::Result<()> {
    misplaced_slots(rt)?;
    misplaced_rows(rt)?;
    misplaced_weights(rt)?;
    well_placed(rt)
}
