// A small whole catalogue: three slots and three sheets.
use crate::case::bare;
use samples::draft::Draft;
use std::alloc::{AllocError, Global};
use std::io;

// Three slots and a fit sheet.
fn beginning(heap: Global) -> Result<Draft, AllocError> {
    let slots = Draft::new(heap).slot(2)?.slot(3)?.slot(3)?;
    let sheet = slots.fit(&[0, 1])?.row(&[0, 0])?.row(&[0, 1])?;
    sheet.row(&[1, 1])?.row(&[1, 2])
}

// All but the end: a second fit sheet and a bar sheet.
pub fn records(heap: Global) -> Result<Draft, AllocError> {
    let sheet = beginning(heap)?.fit(&[1, 2])?;
    let sheet = sheet.row(&[0, 0])?.row(&[1, 1])?.row(&[2, 2])?;
    sheet.bar(&[0, 2])?.row(&[0, 1])
}

pub fn run(rt: &HostRuntime) -> io::Result<()> {
    let heap = rt.alloc();
    let file = records(heap)?.end()?;
    let size = file.as_slice().len();
    println!(rt; "size of the example: {size}")?;
    bare(rt, "the example", file)?;
    let changed = records(heap)?.end()?.with(100, 0x02);
    bare(rt, "the example with byte 100 changed to 02", changed)
}
