// What the programs read: the first bytes of an input or of a file, and one read.
#![tactic(auto)]

ghost use Rattle.std.specs.Prelude.{◌≡◌, ◌≢◌, ◌≤◌, ◌<◌, [], take, length, IfOk, IfErr, OnErr, IsOkAnd, IfSome, vec_len, Err};
ghost use Rattle.std.specs.IoError.{error_kind};
ghost use Rattle.std.specs.Io.KnownBytes.{Consumes, IsAtEnd, Keeps};

use std::alloc::Allocator;
use std::io;
use std::io::{ErrorKind, Read};

#[cfg(test)]
mod tests;

// How much the programs read at most, of a file and of an input. That it is more than an accepted catalogue can have is
// proved in `dialogue`, which knows both.
pub const LIMIT: usize = 65536;

// The first bytes of an input: all, or as many as `limit` says where there are more. A read that is interrupted is tried
// again.
pub fn first_bytes<R: Read + Drop, A: Allocator>(
    alloc: A,
    input: R,
    limit: usize,
) -> io::Result<Vec<u8, A>>
    ensures within { IfOk result (λ bytes. vec_len bytes ≤ limit) }
    ensures bytes { IfSome (R.remaining input) (λ xs. IfOk result (λ bytes. bytes.items ≡ take limit xs)) }
    ensures retried { IfErr result (λ e. error_kind e ≢ ErrorKind.Interrupted) }
{
    let mut bytes = Vec::new(alloc);
    input.take(limit as u64).read_to_end(&mut bytes)?;
    // `take` stops there already; this shows it of an input whose bytes no contract knows, such as a file.
    bytes.truncate(limit);
    Ok(bytes)
}

// The first bytes of a file that was to be opened. One that was not found counts as empty, and every other error of opening is
// passed on. So is any error of reading but an interruption, after which the read is tried again; which it is, is left free.
pub fn first_bytes_of_opened<R: Read + Drop, A: Allocator>(
    alloc: A,
    opened: io::Result<R>,
    limit: usize,
) -> io::Result<Vec<u8, A>>
    ensures within { IfOk result (λ bytes. vec_len bytes ≤ limit) }
    ensures bytes { IfOk opened (λ file. IfSome (R.remaining file) (λ xs. IfOk result (λ bytes. bytes.items ≡ take limit xs))) }
    ensures missing { IfErr opened (λ e. error_kind e ≡ ErrorKind.NotFound → IsOkAnd result (λ bytes. bytes.items ≡ [])) }
    ensures passed { IfErr opened (λ e. error_kind e ≢ ErrorKind.NotFound → result ≡ Err e) }
    ensures retried { IfOk opened (λ file. IfErr result (λ e. error_kind e ≢ ErrorKind.Interrupted)) }
{
    match opened {
        Ok(file) => first_bytes(alloc, file, limit),
        Err(e) if e.kind() == ErrorKind::NotFound => Ok(Vec::new(alloc)),
        Err(e) => Err(e),
    }
}

// One read, tried again while it is interrupted. An error has taken nothing. Left free is what the buffer holds behind the
// bytes that came, or at all after an error; and which error comes, but for one that says interrupted.
pub fn read_some<R: Read>(input: &mut R, into: &mut [u8]) -> io::Result<usize>
    ensures within { IfOk result (λ n. n ≤ length into.new) }
    ensures taken { IfOk result (λ n. Consumes (R.remaining input.old) (R.remaining input.new) (take n into.new)) }
    ensures end { IfOk result (λ n. n ≡ 0 → 0 < length into.old → IsAtEnd (R.remaining input.new)) }
    ensures kept { OnErr result (Keeps (R.remaining input.old) (R.remaining input.new)) }
    ensures retried { IfErr result (λ e. error_kind e ≢ ErrorKind.Interrupted) }
{
    for _ in 0..u64::MAX {
        match input.read(into) {
            Err(e) if e.kind() == ErrorKind::Interrupted => {}
            read => return read,
        }
    }
    Err(io::Error::from(ErrorKind::TimedOut))
}
