// Records that fail several checks at once: the check with the lowest number answers.
use crate::bases::{fit_one, fit_pair, fit_sheets, load_pair, load_sheets, many_rows, one_slot};
use crate::case::{bare, case, cut};
use samples::draft::Draft;
use std::io;

fn slots(rt: &HostRuntime) -> io::Result<()> {
    let heap = rt.alloc();
    let full = Draft::new(heap).slots(48, 1)?;
    case(rt, "a 49th slot, of 33 options", full.slot(33)?)?;
    case(
        rt,
        "a slot of 0 options behind a header",
        fit_one(heap)?.slot(0)?,
    )?;
    let both = Draft::new(heap).slots(48, 1)?.fit(&[0])?;
    case(
        rt,
        "a 49th slot, of 33 options, behind a header",
        both.slot(33)?,
    )?;
    cut(rt, "a cut slot behind a header", fit_one(heap)?.slot(1)?)
}

fn scopes(rt: &HostRuntime) -> io::Result<()> {
    let heap = rt.alloc();
    let long = one_slot(heap)?.raw(&[2, 9, 9, 9, 9, 9, 9, 9, 9, 9])?;
    case(rt, "a scope of 9 slots that are not there", long)?;
    let used = one_slot(heap)?.raw(&[2, 1, 9, 9, 255, 255, 255, 255, 255, 255])?;
    case(rt, "a used byte behind a slot that is not there", used)?;
    let twice = one_slot(heap)?.raw(&[2, 2, 0, 0, 0, 255, 255, 255, 255, 255])?;
    case(rt, "a used byte behind a slot named twice", twice)
}

fn headers(rt: &HostRuntime) -> io::Result<()> {
    let heap = rt.alloc();
    let full = fit_sheets(heap, 64)?;
    case(
        rt,
        "a 65th sheet on a slot that is not there",
        full.fit(&[9])?,
    )?;
    let full = load_sheets(heap, 8)?;
    case(
        rt,
        "a 9th load sheet with a scope of 0 slots",
        full.load(&[], 10)?,
    )?;
    cut(rt, "a cut 65th header", fit_sheets(heap, 65)?)
}

fn rows(rt: &HostRuntime) -> io::Result<()> {
    let heap = rt.alloc();
    case(
        rt,
        "a row of no such option before any header",
        one_slot(heap)?.row(&[9])?,
    )?;
    let again = fit_pair(heap)?.row(&[0, 1])?;
    let again = again.raw(&[5, 0, 1, 0, 255, 255, 255, 255, 255])?;
    case(rt, "a row again with a used byte behind it", again)?;
    cut(
        rt,
        "a cut row under a load header",
        load_pair(heap)?.row(&[0, 1])?,
    )
}

fn rows_too_many(rt: &HostRuntime) -> io::Result<()> {
    let heap = rt.alloc();
    case(
        rt,
        "a 4097th row of no such option",
        many_rows(heap, 4096)?.row(&[32])?,
    )?;
    let again = many_rows(heap, 4096)?.row(&[31, 31, 31, 31, 31, 0, 0, 0])?;
    case(rt, "a 4097th row that is there already", again)
}

fn weights(rt: &HostRuntime) -> io::Result<()> {
    let heap = rt.alloc();
    let fit = fit_pair(heap)?.weight(9, 9, 30_001)?;
    case(rt, "a weight of nothing under a fit header", fit)?;
    let again = load_pair(heap)?.weight(0, 1, 5)?.weight(0, 1, 30_001)?;
    case(rt, "a weight again, and too much", again)
}

// And a fault in an earlier record comes before any in a later one.
fn ends(rt: &HostRuntime) -> io::Result<()> {
    let heap = rt.alloc();
    bare(
        rt,
        "a byte behind an end alone",
        Draft::new(heap).end()?.raw(&[0x00])?,
    )?;
    bare(
        rt,
        "a kind 00 behind 33 options",
        Draft::new(heap).slot(33)?.raw(&[0x00])?,
    )
}

pub fn run(rt: &HostRuntime) -> io::Result<()> {
    slots(rt)?;
    scopes(rt)?;
    headers(rt)?;
    rows(rt)?;
    rows_too_many(rt)?;
    weights(rt)?;
    ends(rt)
}
