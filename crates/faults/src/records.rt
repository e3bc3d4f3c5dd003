// Faults 1 to 3: records that cannot be read.
use crate::bases::{fit_one, load_one, one_slot};
use crate::case::{bare, cut};
use samples::draft::Draft;
use std::io;

// 1: the file just stops.
fn no_record(rt: &HostRuntime) -> io::Result<()> {
    let heap = rt.alloc();
    bare(rt, "nothing", Draft::new(heap))?;
    bare(rt, "no end behind a slot", one_slot(heap)?)?;
    bare(rt, "no end behind a header", fit_one(heap)?)?;
    bare(rt, "no end behind a row", fit_one(heap)?.row(&[0])?)
}

// 2: the first byte of a record is no kind.
fn no_kind(rt: &HostRuntime) -> io::Result<()> {
    let heap = rt.alloc();
    bare(rt, "kind 00 at first", Draft::new(heap).raw(&[0x00])?)?;
    bare(rt, "kind 00 behind a slot", one_slot(heap)?.raw(&[0x00])?)?;
    bare(rt, "kind 08 behind a slot", one_slot(heap)?.raw(&[0x08])?)?;
    bare(rt, "kind FF behind a slot", one_slot(heap)?.raw(&[0xFF])?)
}

// 3: the last byte of a record is missing.
fn cut_records(rt: &HostRuntime) -> io::Result<()> {
    let heap = rt.alloc();
    cut(rt, "a slot cut by a byte", one_slot(heap)?)?;
    cut(rt, "a fit header cut by a byte", fit_one(heap)?)?;
    cut(rt, "a bar header cut by a byte", one_slot(heap)?.bar(&[0])?)?;
    cut(rt, "a load header cut by a byte", load_one(heap)?)?;
    cut(rt, "a row cut by a byte", fit_one(heap)?.row(&[0])?)?;
    cut(
        rt,
        "a weight cut by a byte",
        load_one(heap)?.weight(0, 0, 5)?,
    )
}

pub fn run(rt: &HostRuntime) -> io::Result<()> {
    no_record(rt)?;
    no_kind(rt)?;
    cut_records(rt)
}
