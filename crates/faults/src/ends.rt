// Faults 13 and 14: a file has a slot, and nothing behind its end.
use crate::bases::{fit_one, one_slot};
use crate::case::bare;
use samples::draft::Draft;
use std::io;

pub fn run(rt: &HostRuntime) -> io::Result<()> {
    let heap = rt.alloc();
    bare(rt, "an end alone", Draft::new(heap).end()?)?;
    bare(
        rt,
        "a byte 00 behind the end",
        one_slot(heap)?.end()?.raw(&[0x00])?,
    )?;
    bare(rt, "an end behind the end", one_slot(heap)?.end()?.end()?)?;
    bare(rt, "a slot behind the end", one_slot(heap)?.end()?.slot(1)?)?;
    bare(
        rt,
        "a row behind the end of a sheet",
        fit_one(heap)?.end()?.row(&[0])?,
    )
}
