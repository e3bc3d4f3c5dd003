// Faults 9 and 10: what a row holds, and that it stands once in its sheet.
use crate::bases::{fit_pair, two_slots};
use crate::case::case;
use std::io;

// 9: an option of each slot.
fn fields(rt: &HostRuntime) -> io::Result<()> {
    let heap = rt.alloc();
    case(rt, "the last options", fit_pair(heap)?.row(&[1, 2])?)?;
    case(
        rt,
        "no such option in the first field",
        fit_pair(heap)?.row(&[2, 0])?,
    )?;
    case(
        rt,
        "no such option in the second field",
        fit_pair(heap)?.row(&[0, 3])?,
    )?;
    case(rt, "FF in the second field", fit_pair(heap)?.row(&[0])?)
}

// 9: the fields are in the order of the scope, in a bar sheet too, and the bytes behind them are FF.
fn in_order(rt: &HostRuntime) -> io::Result<()> {
    let heap = rt.alloc();
    let turned = two_slots(heap)?.bar(&[1, 0])?;
    case(rt, "fields in the order of the scope", turned.row(&[2, 1])?)?;
    let turned = two_slots(heap)?.bar(&[1, 0])?;
    case(rt, "fields in the order of the slots", turned.row(&[1, 2])?)?;
    let next = fit_pair(heap)?.raw(&[5, 0, 0, 0, 255, 255, 255, 255, 255])?;
    case(rt, "a used byte right behind the fields", next)?;
    let last = fit_pair(heap)?.raw(&[5, 0, 0, 255, 255, 255, 255, 255, 0])?;
    case(rt, "a used last byte behind the fields", last)
}

// 10: a row stands once in its sheet.
fn again(rt: &HostRuntime) -> io::Result<()> {
    let heap = rt.alloc();
    let fit = fit_pair(heap)?.row(&[0, 1])?;
    case(rt, "a row again", fit.row(&[0, 1])?)?;
    let between = fit_pair(heap)?.row(&[0, 1])?.row(&[1, 1])?;
    case(rt, "a row again, another between", between.row(&[0, 1])?)?;
    let bar = two_slots(heap)?.bar(&[0, 1])?.row(&[0, 1])?;
    case(rt, "a row again in a bar sheet", bar.row(&[0, 1])?)
}

fn not_again(rt: &HostRuntime) -> io::Result<()> {
    let heap = rt.alloc();
    let fit = fit_pair(heap)?.row(&[0, 1])?;
    case(rt, "the fields the other way round", fit.row(&[1, 0])?)?;
    let fit = fit_pair(heap)?.row(&[0, 1])?.fit(&[0, 1])?;
    case(rt, "a row again in another fit sheet", fit.row(&[0, 1])?)?;
    let bar = fit_pair(heap)?.row(&[0, 1])?.bar(&[0, 1])?;
    case(rt, "a row again in a bar sheet behind", bar.row(&[0, 1])?)
}

pub fn run(rt: &HostRuntime) -> io::Result<()> {
    fields(rt)?;
    in_order(rt)?;
    again(rt)?;
    not_again(rt)
}
