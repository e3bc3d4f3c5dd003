// Runs the program's dialogue over readers and writers in memory, and prints what it writes. Every line that is wanted was
// thought out from the catalogues below.
#![tactic(auto)]

mod files;
mod pieces;

use dialogue::program::run;
use files::{large, small};
use pieces::Pieces;
use std::io;
use std::io::{ErrorKind, Read, Write};

// What is written of a file and an input.
fn written<R: Read + Drop>(
    rt: &HostRuntime,
    file: io::Result<&[u8]>,
    mut input: R,
) -> io::Result<Vec<u8>> {
    let mut output = Vec::new(rt.alloc());
    run(rt.alloc(), file, &mut input, &mut output)?;
    Ok(output)
}

// Prints it, behind a line that says what is tried.
fn show<R: Read + Drop>(
    rt: &HostRuntime,
    what: &str,
    file: io::Result<&[u8]>,
    input: R,
) -> io::Result<()> {
    println!(rt; "-- {what}")?;
    let output = written(rt, file, input)?;
    rt.stdout().write_all(output.as_slice())
}

// Lines of a planner with 48 slots of 32 options. Its fit sheet leaves slot 0 the options 3 and 4 and slot 47 the options 5
// and 6, and 3 goes with 5; all other slots keep theirs.
const OF_48_SLOTS: &[u8] = b"l 0\n\
l 47\n\
l 24\n\
t 0 3\n\
s 24 0\n\
w\n\
n\n\
n\n\
l 0\n\
e\n\
b\n\
b\n\
t 0 5\n\
t 0 32\n\
l 48\n";

// Lines of the small catalogue.
const OF_3_SLOTS: &[u8] = b"t 0 0\nb\ns 1 1\nw\nn\nn\nn\ne\n";

// More than 65,536 bytes: lines of four bytes each, and a last line that begins at 65,532. Its first four bytes look at
// slot 0, the whole of it at slot 1.
fn long_input(rt: &HostRuntime) -> io::Result<Vec<u8>> {
    let mut input = Vec::new(rt.alloc());
    for _ in 0..16_383 {
        input.extend_from_slice(b"l 0\n")?;
    }
    input.extend_from_slice(b"l 001\nl 1\n")?;
    Ok(input)
}

// Each of its lines gets five bytes, and the line before them has 24.
fn show_long(rt: &HostRuntime, file: &[u8]) -> io::Result<()> {
    println!(rt; "-- an input longer than 65,536 bytes: how many are written, and the last line")?;
    let input = long_input(rt)?;
    let output = written(rt, Ok(file), input.as_slice())?;
    let bytes = output.len();
    println!(rt; "{bytes}")?;
    rt.stdout()
        .write_all(&output.as_slice()[bytes.saturating_sub(5)..])
}

// Where the file may not be read, the error is passed on.
fn show_error(rt: &HostRuntime) -> io::Result<()> {
    println!(rt; "-- a file that may not be read")?;
    let denied = Err(io::Error::from(ErrorKind::PermissionDenied));
    match written(rt, denied, OF_3_SLOTS) {
        Err(e) if e.kind() == ErrorKind::PermissionDenied => println!(rt; "passed on"),
        _ => println!(rt; "not passed on"),
    }
}

fn show_48_slots(rt: &HostRuntime) -> io::Result<()> {
    let file = large(rt.alloc())?;
    show(
        rt,
        "48 slots of 32 options",
        Ok(file.as_slice()),
        OF_48_SLOTS,
    )
}

// Ends of lines and of the input, and an input that comes in pieces.
fn show_lines(rt: &HostRuntime, file: &[u8]) -> io::Result<()> {
    show(
        rt,
        "a last line without its end",
        Ok(file),
        b"l 0\nl 1".as_slice(),
    )?;
    show(
        rt,
        "a line that ends in 0D 0A",
        Ok(file),
        b"l 0\r\nl 1\n".as_slice(),
    )?;
    show(rt, "an input in pieces", Ok(file), Pieces::new(OF_3_SLOTS))?;
    show(rt, "no line", Ok(file), b"".as_slice())?;
    show_long(rt, file)
}

fn show_3_slots(rt: &HostRuntime) -> io::Result<()> {
    let file = small(rt.alloc())?;
    show_lines(rt, file.as_slice())
}

fn show_faults(rt: &HostRuntime) -> io::Result<()> {
    show(rt, "a file with a fault", Ok(&[1, 33, 7]), OF_3_SLOTS)?;
    let missing = Err(io::Error::from(ErrorKind::NotFound));
    show(rt, "a missing file", missing, OF_3_SLOTS)?;
    show_error(rt)
}

fn main(rt: HostRuntime) -> io::Result<()> {
    show_48_slots(&rt)?;
    show_3_slots(&rt)?;
    show_faults(&rt)
}
