// The program, over any file, input and output.
ghost use Rattle.std.specs.Prelude.{◌≡◌, ◌≢◌, [], Err, List, ℕ, IfOk, IfErr, OnOk};
ghost use Rattle.std.specs.IoError.{error_kind};
ghost use Rattle.std.specs.Io.KnownBytes.{Keeps};
ghost use Rattle.dialogue.specs.Program.{FirstBytes, Told};

use crate::serve::serve;
use catalogue::checked::{Catalogue, LONGEST};
use checker::check;
use input::{LIMIT, first_bytes_of_opened};
use session::state::Session;
use std::alloc::Allocator;
use std::io;
use std::io::{ErrorKind, Read, Write};

// Each accepted file is read whole, and one that is cut has too many bytes to be accepted.
const _: () = prove!(LIMIT > LONGEST);

// Says what the bytes of a file hold or what is wrong with them; and where they are a catalogue, answers the lines of the
// input.
fn tell<R: Read, W: Write, A: Allocator + Copy>(
    alloc: A,
    file: &[u8],
    input: &mut R,
    output: &mut W,
) -> io::Result<()>
    ensures { OnOk result (Told file.now (R.remaining input.old) (R.remaining input.new) (W.contents output.old) (W.contents output.new)) }
{
    let mut catalogue = Catalogue::built_in();
    match check(file, &mut catalogue) {
        Ok(counts) => {
            writeln!(output, "{counts}")?;
            output.flush()?;
            serve(alloc, Session::of(plain::open(&catalogue)), input, output)?;
            Ok(())
        }
        Err(fault) => {
            writeln!(output, "{fault}")?;
            output.flush()
        }
    }
}

// Says what a file holds or what is wrong with it, and where it is a catalogue, answers the lines of the input as they come.
// Of the file and of the input the first 65,536 bytes are read. A file that was not found counts as empty; where it could not
// be opened for another reason, nothing is read or written. Any other error is one of memory, of reading or of writing; when one
// comes and which, how much was taken of the input and how much was written before it, is left free.
pub fn run<F: Read + Drop, R: Read, W: Write, A: Allocator + Copy>(
    alloc: A,
    file: io::Result<F>,
    input: &mut R,
    output: &mut W,
) -> io::Result<()>
    ensures opened { IfOk file (λ f. OnOk result ((bytes : List ℕ) × FirstBytes (F.remaining f) bytes × Told bytes (R.remaining input.old) (R.remaining input.new) (W.contents output.old) (W.contents output.new))) }
    ensures missing { IfErr file (λ e. error_kind e ≡ ErrorKind.NotFound → OnOk result (Told [] (R.remaining input.old) (R.remaining input.new) (W.contents output.old) (W.contents output.new))) }
    ensures passed { IfErr file (λ e. error_kind e ≢ ErrorKind.NotFound → (result ≡ Err e) × Keeps (R.remaining input.old) (R.remaining input.new) × Keeps (W.contents output.old) (W.contents output.new)) }
{
    let bytes = first_bytes_of_opened(alloc, file, LIMIT)?;
    tell(alloc, bytes.as_slice(), input, output)
}
