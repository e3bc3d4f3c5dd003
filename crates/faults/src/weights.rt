// Faults 11 and 12: what a weight is of, how much it is, and that it stands once in its sheet.
use crate::bases::load_pair;
use crate::case::case;
use std::io;

// 11: a weight is of an option of a slot of the scope.
fn what(rt: &HostRuntime) -> io::Result<()> {
    let heap = rt.alloc();
    let last = load_pair(heap)?.weight(0, 1, 5)?;
    case(rt, "weights of the last options", last.weight(1, 2, 5)?)?;
    case(rt, "no such position", load_pair(heap)?.weight(2, 0, 5)?)?;
    case(
        rt,
        "no such option of the first slot",
        load_pair(heap)?.weight(0, 2, 5)?,
    )?;
    case(
        rt,
        "no such option of the second slot",
        load_pair(heap)?.weight(1, 3, 5)?,
    )
}

// 11: a weight is from -30,000 to 30,000.
fn amounts(rt: &HostRuntime) -> io::Result<()> {
    let heap = rt.alloc();
    case(rt, "weight 30000", load_pair(heap)?.weight(0, 0, 30_000)?)?;
    case(rt, "weight 30001", load_pair(heap)?.weight(0, 0, 30_001)?)?;
    case(rt, "weight 32767", load_pair(heap)?.weight(0, 0, 32_767)?)?;
    case(rt, "weight -30000", load_pair(heap)?.weight(0, 0, -30_000)?)?;
    case(rt, "weight -30001", load_pair(heap)?.weight(0, 0, -30_001)?)?;
    case(rt, "weight -32768", load_pair(heap)?.weight(0, 0, -32_768)?)
}

// 12: an option has one weight at a position of its sheet.
fn again(rt: &HostRuntime) -> io::Result<()> {
    let heap = rt.alloc();
    let same = load_pair(heap)?.weight(0, 1, 5)?;
    case(rt, "a weight again", same.weight(0, 1, 5)?)?;
    let other = load_pair(heap)?.weight(0, 1, 5)?.weight(0, 0, 5)?;
    case(
        rt,
        "another weight of the same option",
        other.weight(0, 1, 6)?,
    )?;
    let turned = load_pair(heap)?.weight(0, 1, 5)?;
    case(
        rt,
        "position and option the other way round",
        turned.weight(1, 0, 5)?,
    )?;
    let other = load_pair(heap)?.weight(0, 1, 5)?.load(&[0, 1], 10)?;
    case(
        rt,
        "a weight again in another sheet",
        other.weight(0, 1, 5)?,
    )
}

pub fn run(rt: &HostRuntime) -> io::Result<()> {
    what(rt)?;
    amounts(rt)?;
    again(rt)
}
