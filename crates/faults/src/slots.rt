// Fault 6: a slot has 1 to 32 options.
use crate::case::case;
use samples::draft::Draft;
use std::io;

pub fn run(rt: &HostRuntime) -> io::Result<()> {
    let heap = rt.alloc();
    case(rt, "1 option", Draft::new(heap).slot(1)?)?;
    case(rt, "32 options", Draft::new(heap).slot(32)?)?;
    case(rt, "0 options", Draft::new(heap).slot(0)?)?;
    case(rt, "33 options", Draft::new(heap).slot(33)?)?;
    case(rt, "255 options", Draft::new(heap).slot(255)?)?;
    case(
        rt,
        "33 options of the second slot",
        Draft::new(heap).slot(1)?.slot(33)?,
    )
}
