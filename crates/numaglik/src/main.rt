// The program, on the file `catalogue` in the current folder, standard input and standard output. All of it is a call of
// the library `dialogue`.
#![tactic(auto)]

use dialogue::program::run;
use std::alloc::AllocError;
use std::fs::File;
use std::io::ErrorKind;

// An error ends the program and is told in words, not by its fields.
fn main(rt: HostRuntime) -> anyhow::Result<()> {
    let file = File::open(&rt, "catalogue");
    match run(rt.alloc(), file, &mut rt.stdin(), &mut rt.stdout()) {
        // The library answers a failed allocation as an error of `io`, which has other words for it.
        Err(e) if e.kind() == ErrorKind::OutOfMemory && e.raw_os_error().is_none() => {
            Err(anyhow::Error::from(AllocError))
        }
        result => Ok(result?),
    }
}
