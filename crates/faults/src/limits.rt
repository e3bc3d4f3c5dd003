// Fault 5: one slot, sheet, load sheet or row too many.
use crate::bases::{fit_sheets, load_sheets, many_rows};
use crate::case::{bare, case};
use samples::draft::Draft;
use samples::large::largest;
use std::io;

fn many_slots(rt: &HostRuntime) -> io::Result<()> {
    let heap = rt.alloc();
    case(rt, "48 slots", Draft::new(heap).slots(48, 1)?)?;
    case(rt, "49 slots", Draft::new(heap).slots(49, 1)?)
}

fn many_sheets(rt: &HostRuntime) -> io::Result<()> {
    let heap = rt.alloc();
    case(rt, "64 sheets", fit_sheets(heap, 64)?)?;
    case(rt, "65 sheets", fit_sheets(heap, 65)?)?;
    case(rt, "8 load sheets", load_sheets(heap, 8)?)?;
    case(rt, "9 load sheets", load_sheets(heap, 9)?)?;
    case(
        rt,
        "8 load sheets and a fit sheet",
        load_sheets(heap, 8)?.fit(&[0])?,
    )
}

fn rows(rt: &HostRuntime) -> io::Result<()> {
    let heap = rt.alloc();
    case(rt, "4096 rows", many_rows(heap, 4096)?)?;
    case(rt, "4097 rows", many_rows(heap, 4097)?)?;
    let other = many_rows(heap, 4096)?.fit(&[0])?;
    case(rt, "4096 rows and one of another sheet", other.row(&[0])?)
}

fn as_much_as_may_be(rt: &HostRuntime) -> io::Result<()> {
    let file = largest(rt.alloc())?;
    let size = file.as_slice().len();
    println!(rt; "size of the largest file: {size}")?;
    bare(rt, "the largest file", file)
}

pub fn run(rt: &HostRuntime) -> io::Result<()> {
    many_slots(rt)?;
    many_sheets(rt)?;
    rows(rt)?;
    as_much_as_may_be(rt)
}
