// The lines of an input, answered as they come.
ghost use Rattle.std.specs.Prelude.{◌≡◌, ◌+◌, ◌<◌, ◌≤◌, ℕ, List, Decides, take, drop, length, IfOk, true, false};
ghost use Rattle.std.specs.Io.KnownBytes.{Consumes, IsAtEnd, Appends};
ghost use Rattle.dialogue.specs.Talk.{Answered, Served};

use crate::batch::answer;
use binder::binders::Binder;
use commands::lines::whole_lines;
use input::{LIMIT, read_some};
use session::state::Session;
use std::alloc::Allocator;
use std::io;
use std::io::{Read, Write};

// How much one read brings at most. A batch then has no more than 4,096 lines, and its calls, replies and words never take
// more than a mebibyte; those of a batch as long as the whole buffer would take over ten.
const PART: usize = 4096;

// Answers the lines of some input, and writes what is said in one go. Where there are none, nothing is written.
fn speak<B: Binder + Drop, W: Write, A: Allocator + Copy>(
    alloc: A,
    session: Session<B>,
    input: &[u8],
    output: &mut W,
) -> io::Result<Session<B>>
    ensures { IfOk result (λ after. (words : List ℕ) × Appends (W.contents output.old) (W.contents output.new) words × Answered B.Binder.meaning input.now words session after) }
{
    let (after, words) = answer(alloc, session, input)?;
    output.write_all(words.as_slice())?;
    output.flush()?;
    Ok(after)
}

// Whether reading goes on: bytes came, and there is room for more.
fn goes_on(came: usize, to: usize) -> bool
    ensures { Decides result ((0 < came) × (to < 65536)) }
{
    came > 0 && to < LIMIT
}

// One read into a part of a buffer behind its first bytes, and these stay.
fn read_behind<R: Read>(input: &mut R, buffer: &mut [u8], behind: usize) -> io::Result<usize>
    requires { behind ≤ length buffer.old }
    ensures within { IfOk result (λ n. behind + n ≤ length buffer.new) }
    ensures front { take behind buffer.new ≡ take behind buffer.old }
    ensures taken { IfOk result (λ n. Consumes (R.remaining input.old) (R.remaining input.new) (take n (drop behind buffer.new))) }
    ensures end { IfOk result (λ n. n ≡ 0 → behind < length buffer.old → IsAtEnd (R.remaining input.new)) }
{
    let end = behind + PART.min(buffer.len() - behind);
    read_some(input, &mut buffer[behind..end])
}

// Answers the lines of the first bytes of an input as they come, each batch of whole lines in one go, and at the end the
// rest, which has no line end. An error is one of memory, of reading or of writing; when one comes and which, how much was
// taken of the input and how much was written before it, is left free.
pub fn serve<B: Binder + Drop, R: Read, W: Write, A: Allocator + Copy>(
    alloc: A,
    mut session: Session<B>,
    input: &mut R,
    output: &mut W,
) -> io::Result<Session<B>>
    ensures { IfOk result (λ after. Served B.Binder.meaning (R.remaining input.old) (R.remaining input.new) (W.contents output.old) (W.contents output.new) session after) }
{
    let mut bytes = Vec::from_elem(alloc, 0u8, LIMIT)?;
    let buffer = bytes.as_mut_slice();
    // Two places in the buffer are plainer here: bytes that wait for their line end stay between them.
    let mut from = 0;
    let mut to = 0;
    let mut more = true;
    'reads: while more {
        let came = read_behind(input, buffer, to)?;
        to += came;
        more = goes_on(came, to);
        let lines = whole_lines(&buffer[from..to]);
        session = speak(alloc, session, &buffer[from..from + lines], output)?;
        from += lines;
    }
    speak(alloc, session, &buffer[from..to], output)
}
