// Faults 7 and 8: how many slots a header names, and which.
use crate::bases::{one_slot, two_slots};
use crate::case::case;
use samples::draft::Draft;
use std::io;

// 7: a scope has 1 to 8 slots.
fn lengths(rt: &HostRuntime) -> io::Result<()> {
    let heap = rt.alloc();
    case(rt, "a scope of 0 slots", one_slot(heap)?.fit(&[])?)?;
    case(
        rt,
        "a bar sheet's scope of 0 slots",
        one_slot(heap)?.bar(&[])?,
    )?;
    case(
        rt,
        "a load sheet's scope of 0 slots",
        one_slot(heap)?.load(&[], 10)?,
    )?;
    let eight = Draft::new(heap).slots(8, 1)?;
    case(
        rt,
        "a scope of 8 slots",
        eight.fit(&[0, 1, 2, 3, 4, 5, 6, 7])?,
    )?;
    let nine = Draft::new(heap).slots(9, 1)?;
    case(
        rt,
        "a scope of 9 slots",
        nine.raw(&[2, 9, 0, 1, 2, 3, 4, 5, 6, 7])?,
    )
}

// 7: the bytes behind a scope are FF, and a cap is no part of them.
fn behind(rt: &HostRuntime) -> io::Result<()> {
    let heap = rt.alloc();
    let next = two_slots(heap)?.raw(&[2, 1, 0, 1, 255, 255, 255, 255, 255, 255])?;
    case(rt, "a used byte right behind a scope", next)?;
    let last = two_slots(heap)?.raw(&[2, 1, 0, 255, 255, 255, 255, 255, 255, 0])?;
    case(rt, "a used last byte behind a scope", last)?;
    let load = two_slots(heap)?.raw(&[4, 1, 0, 255, 255, 255, 255, 255, 255, 0])?;
    case(rt, "a used byte before a cap", load.raw(&[10, 0, 0, 0])?)?;
    case(
        rt,
        "a cap of -2147483648",
        two_slots(heap)?.load(&[0], i32::MIN)?,
    )
}

// 8: each slot is one of the file's.
fn unknown(rt: &HostRuntime) -> io::Result<()> {
    let heap = rt.alloc();
    case(rt, "a scope of the last slot", two_slots(heap)?.fit(&[1])?)?;
    case(rt, "a slot that is not there", two_slots(heap)?.fit(&[2])?)?;
    case(
        rt,
        "a second slot that is not there",
        two_slots(heap)?.bar(&[0, 2])?,
    )?;
    case(rt, "a slot FF", two_slots(heap)?.load(&[0, 255], 10)?)?;
    case(rt, "a header before any slot", Draft::new(heap).fit(&[0])?)
}

// 8: no slot is named twice.
fn twice(rt: &HostRuntime) -> io::Result<()> {
    let heap = rt.alloc();
    case(
        rt,
        "both slots, the second first",
        two_slots(heap)?.fit(&[1, 0])?,
    )?;
    case(rt, "a slot named twice", two_slots(heap)?.fit(&[0, 0])?)?;
    case(
        rt,
        "a slot named twice, first and last",
        two_slots(heap)?.bar(&[1, 0, 1])?,
    )
}

pub fn run(rt: &HostRuntime) -> io::Result<()> {
    lengths(rt)?;
    behind(rt)?;
    unknown(rt)?;
    twice(rt)
}
