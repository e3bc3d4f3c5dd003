// What a lent catalogue holds after faults and after an accepted file.
use crate::example::records;
use catalogue::checked::Catalogue;
use catalogue::make::Make;
use checker::check;
use std::io;

fn show_check<'a>(rt: &HostRuntime, file: &'a [u8], held: &mut Catalogue<'a>) -> io::Result<()> {
    // Both sides print by their own `Display`: a type over the two would be no plainer.
    match check(file, held) {
        Ok(counts) => println!(rt; "checked: {counts}")?,
        Err(fault) => println!(rt; "checked: {fault}")?,
    }
    let counts = held.counts;
    println!(rt; "held then: {counts}")
}

fn show_options(rt: &HostRuntime, held: &Catalogue, slot: usize) -> io::Result<()> {
    match held.options(slot) {
        Some(n) => println!(rt; "options of slot {slot}: {n}"),
        None => println!(rt; "options of slot {slot}: no such slot"),
    }
}

fn show_count(rt: &HostRuntime, held: &Catalogue, make: Make) -> io::Result<()> {
    let count = held.sheet_count(make);
    println!(rt; "{make} sheets: {count}")
}

fn show_sheet(rt: &HostRuntime, held: &Catalogue, make: Make, i: usize) -> io::Result<()> {
    match held.sheet(make, i) {
        Some(view) => {
            let scope = view.scope;
            let cap = view.cap;
            let size = view.entries.len();
            println!(rt; "{make} sheet {i}: scope {scope:?} cap {cap} entries of {size} bytes")
        }
        None => println!(rt; "{make} sheet {i}: no such sheet"),
    }
}

fn show_slots(rt: &HostRuntime, held: &Catalogue) -> io::Result<()> {
    for slot in 0..4 {
        show_options(rt, held, slot)?;
    }
    Ok(())
}

fn show_sheets(rt: &HostRuntime, held: &Catalogue) -> io::Result<()> {
    for (make, sheets) in [(Make::Fit, 3), (Make::Bar, 2), (Make::Load, 2)] {
        show_count(rt, held, make)?;
        for i in 0..sheets {
            show_sheet(rt, held, make, i)?;
        }
    }
    Ok(())
}

// The built-in catalogue stays through a fault, gives way to an accepted file, and that stays in turn.
fn show<'a>(rt: &HostRuntime, good: &'a [u8], bad: &'a [u8]) -> io::Result<()> {
    let mut held = Catalogue::built_in();
    show_check(rt, bad, &mut held)?;
    show_check(rt, good, &mut held)?;
    show_check(rt, bad, &mut held)?;
    show_slots(rt, &held)?;
    show_sheets(rt, &held)
}

// The example with a load sheet, and the example with a row that is wrong.
pub fn run(rt: &HostRuntime) -> io::Result<()> {
    let heap = rt.alloc();
    let sheets = records(heap)?.load(&[2, 0], -7)?;
    let good = sheets.weight(0, 2, 30)?.weight(1, 1, -40)?.end()?;
    let bad = records(heap)?.end()?.with(100, 0x02);
    show(rt, good.as_slice(), bad.as_slice())
}
