// Shows the sheets of a catalogue with as much of everything as there can be, again and again: first every
// box full, then one option less, with a mark before and an undo behind.
#![tactic(auto)]

use bar::Bar;
use binder::binders::Binder;
use boxes::OptionBox;
use catalogue::checked::Catalogue;
use checker::check;
use fit::Fit;
use load::Load;
use samples::large::largest;
use std::{env, io};

// The box with every option of 48 slots open but one.
fn all_but(slot: usize, option: u8) -> OptionBox {
    let mut slate = OptionBox::full(&[32; 48]);
    slate.close(slot, option);
    slate
}

// A number that depends on all cells.
fn digest(slate: &OptionBox, before: u32) -> u32 {
    slate.cells.iter().fold(before, |sum, cell| {
        sum.wrapping_mul(31).wrapping_add(*cell)
    })
}

// Shows every sheet a box once, and answers how many were shown and the digest.
fn all_sheets<B: Binder>(binder: &mut B, round: u32, before: u32) -> (u32, u32) {
    let mut shown = 0u32;
    let mut slate = all_but((round % 48) as usize, (round % 32) as u8);
    let _ = binder.mark();
    for sheet in 0..binder.sheets() {
        if binder.show(sheet, &mut slate).is_ok() {
            shown = shown.wrapping_add(1);
        }
    }
    let _ = binder.undo();
    (shown, digest(&slate, before))
}

fn rounds<B: Binder>(rt: &HostRuntime, what: &str, binder: &mut B, n: u32) -> io::Result<()> {
    let mut showings = 0u32;
    let mut sum = 0u32;
    for round in 0..n {
        let (shown, now) = all_sheets(binder, round, sum);
        showings = showings.wrapping_add(shown);
        sum = now;
    }
    println!(rt; "{what}: {showings} showings, digest {sum}")
}

// The first argument, or 3.
fn count(rt: &HostRuntime) -> anyhow::Result<u32> {
    match env::args(rt)?.nth(1) {
        Some(word) => Ok(word.as_str().parse::<u32>()?),
        None => Ok(3),
    }
}

fn run(rt: &HostRuntime) -> anyhow::Result<()> {
    let n = count(rt)?;
    let draft = largest(rt.alloc())?;
    let mut catalogue = Catalogue::built_in();
    let _ = check(draft.as_slice(), &mut catalogue);
    rounds(rt, "fit", &mut Fit::new(&catalogue), n)?;
    rounds(rt, "bar", &mut Bar::new(&catalogue), n)?;
    rounds(rt, "load", &mut Load::new(&catalogue), n)?;
    Ok(())
}

fn main(rt: HostRuntime) -> anyhow::Result<()> {
    run(&rt)
}
