// Shows every make of binder every box of a small size, and compares with plain enumeration of lists.
#![tactic(auto)]

mod compare;
mod files;
mod reckon;

use bar::Bar;
use binder::join::Join;
use catalogue::checked::Catalogue;
use catalogue::make::Make;
use checker::check;
use compare::{Tally, every_box};
use fit::Fit;
use load::Load;
use std::io;

fn tell(rt: &HostRuntime, what: &str, tally: Tally) -> io::Result<()> {
    println!(rt; "{what}: {tally}")
}

// Each make by itself.
fn alone(rt: &HostRuntime, catalogue: &Catalogue) -> io::Result<()> {
    let mut fits = Fit::new(catalogue);
    tell(rt, "fit", every_box(&mut fits, 0, catalogue, Make::Fit))?;
    let mut bars = Bar::new(catalogue);
    tell(rt, "bar", every_box(&mut bars, 0, catalogue, Make::Bar))?;
    let mut loads = Load::new(catalogue);
    tell(rt, "load", every_box(&mut loads, 0, catalogue, Make::Load))
}

// All three side by side: the sheets of the first come first.
fn together(rt: &HostRuntime, catalogue: &Catalogue) -> io::Result<()> {
    let tables = Join::new(Fit::new(catalogue), Bar::new(catalogue));
    let mut all = Join::new(tables, Load::new(catalogue));
    let bars = catalogue.sheet_count(Make::Fit);
    let loads = bars.wrapping_add(catalogue.sheet_count(Make::Bar));
    for (make, from) in [(Make::Fit, 0), (Make::Bar, bars), (Make::Load, loads)] {
        let tally = every_box(&mut all, from, catalogue, make);
        println!(rt; "{make}, joined: {tally}")?;
    }
    Ok(())
}

fn run(rt: &HostRuntime) -> anyhow::Result<()> {
    let draft = files::file(rt.alloc())?;
    let mut catalogue = Catalogue::built_in();
    // Both sides print by their own `Display`: a type over the two would be no plainer.
    match check(draft.as_slice(), &mut catalogue) {
        Ok(counts) => println!(rt; "{counts}")?,
        Err(fault) => println!(rt; "{fault}")?,
    }
    alone(rt, &catalogue)?;
    together(rt, &catalogue)?;
    Ok(())
}

fn main(rt: HostRuntime) -> anyhow::Result<()> {
    run(&rt)
}
