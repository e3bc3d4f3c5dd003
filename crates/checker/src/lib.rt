// Checks a file, in one pass over its records: the record layer reads them, the sheet layer checks their
// parts, and the catalogue layer what may stand where.
#![tactic(auto)]

ghost use Rattle.std.specs.Prelude.{◌≡◌, true, IfOk, Ok, Err};
ghost use Rattle.catalogue.specs.Verdict.{verdict, accepts};
ghost use Rattle.catalogue.specs.Law.{Means, Octets};

mod checks;
mod entry;
mod progress;
mod read;
mod record;
mod sheet;
mod steps;

use crate::entry::Entry;
use crate::progress::Progress;
use crate::sheet::entry;
use catalogue::checked::Catalogue;
use catalogue::counts::Counts;
use catalogue::fault::Fault;
use catalogue::kind::Kind;

// How much the file holds, or its first fault.
fn verify(bytes: &[u8]) -> Result<Counts, Fault>
    ensures { result ≡ verdict bytes.now }
{
    let mut progress = Progress::new();
    let mut at = 0;
    // A `loop` is plainer here: only the record at a place says where the next one begins.
    'records: loop {
        match entry(bytes, at)? {
            Entry::Slot(body) => {
                progress.add_slot(body, at)?;
                at += Kind::Slot.len();
            }
            Entry::Header(make, body) => {
                progress.add_header(make, body, at)?;
                at += 1 + body.len();
            }
            Entry::Row(body) => {
                progress.add_row(bytes, body, at)?;
                at += Kind::Row.len();
            }
            Entry::Weight(body) => {
                progress.add_weight(bytes, body, at)?;
                at += Kind::Weight.len();
            }
            Entry::End => return progress.finish(bytes, at),
        }
    }
}

// The verdict, with what it means.
fn judge(bytes: &[u8]) -> Result<Counts, Fault>
    ensures is { result ≡ verdict bytes.now }
    ensures means { Means bytes.now result }
    ensures accepted { IfOk result (λ n. accepts bytes.now n ≡ true) }
    ensures octets { Octets bytes.now }
{
    verify(bytes)
}

// Checks a file, and makes `into` the catalogue that it is. A fault leaves `into` as it was.
pub fn check<'a>(bytes: &'a [u8], into: &mut Catalogue<'a>) -> Result<Counts, Fault>
    ensures is { result ≡ verdict bytes.now }
    ensures means { Means bytes.now result }
    ensures fills { elim result [ Ok n ↦ (into.new.bytes.now ≡ bytes.now) × (into.new.counts ≡ n) | Err e ↦ into.new ≡ into.old ] }
{
    let counts = judge(bytes)?;
    *into = Catalogue { bytes, counts };
    Ok(counts)
}
