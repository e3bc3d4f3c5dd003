// The sheets of an accepted file, one behind another, read off its bytes with no further check.
ghost use Rattle.std.specs.Prelude.{◌≡◌, ℕ, ◌+◌, ◌-◌, ◌<◌, ◌≤◌, false, true, length, MatchOption, slice_index};
ghost use Rattle.std.specs.Iterator.{at_most};
ghost use Rattle.catalogue.specs.Records.{between, kind_at, header_size};
ghost use Rattle.catalogue.specs.Checks.{scope_of, cap_of};
ghost use Rattle.catalogue.specs.Kinds.{code_of};
ghost use Rattle.catalogue.specs.Places.{is_entry, Entries};
ghost use Rattle.catalogue.specs.Listing.{NextGives, Stands};

use crate::kind::Kind;
use crate::make::Make;
use crate::view::View;

// The kind of the record at a place.
fn kind_at(bytes: &[u8], at: usize) -> Option<Kind>
    requires { at < length bytes.now }
    ensures { MatchOption result (between 1 7 (kind_at bytes.now at) ≡ false) (λ k. code_of k ≡ kind_at bytes.now at) }
{
    Kind::try_from(bytes[at]).ok()
}

// The same, if the record is a row or a weight.
fn entry_at(bytes: &[u8], at: usize) -> Option<Kind>
    requires { at < length bytes.now }
    ensures { MatchOption result (is_entry (kind_at bytes.now at) ≡ false) (λ k. (is_entry (kind_at bytes.now at) ≡ true) × (code_of k ≡ kind_at bytes.now at)) }
{
    kind_at(bytes, at).filter(|kind| kind.is_entry())
}

// Where the rows or weights end that lie from a place on.
fn entries_end(bytes: &[u8], from: usize) -> usize
    requires { (to : ℕ) × Entries bytes.now from to }
    ensures { (to : ℕ) → Entries bytes.now from to → result ≡ to }
{
    let mut at = from;
    // A `while` is plainer here: only the record at a place says where the next one begins.
    while let Some(kind) = entry_at(bytes, at) {
        at += kind.len();
    }
    at
}

// The slots that a header's body names; more may stand behind the body.
fn scope_of(body: &[u8]) -> &[u8]
    requires { slice_index body.now 0 < length body.now }
    ensures { result.now ≡ scope_of body.now }
{
    let size = usize::from(body[0]);
    &body[1..1 + size]
}

// The cap that a header's body says. It is 0 where the make has no cap, as the definition says.
fn cap_of(make: Make, body: &[u8]) -> i32
    requires { header_size make ≤ length body.now + 1 }
    ensures { result ≡ cap_of make body.now }
{
    match make {
        Make::Fit | Make::Bar => 0,
        Make::Load => i32::from_le_bytes([body[9], body[10], body[11], body[12]]),
    }
}

// What is left to go through: the sheets from a place on, up to the end record. It keeps a place and not the rest of
// the bytes, since the definitions speak of places in the file.
#[derive(Drop)]
pub(crate) struct SheetScan<'a> {
    pub(crate) bytes: &'a [u8],
    pub(crate) at: usize,
}

impl<'a> Iterator for SheetScan<'a> {
    type Item = (Make, View<'a>);

    ghost can_next = { Stands };

    ghost next_gives = { NextGives };

    ghost remaining = { λ s. at_most (length s.bytes.now - s.at) };

    fn next(&mut self) -> Option<(Make, View<'a>)> {
        let bytes = self.bytes;
        let at = self.at;
        let kind = kind_at(bytes, at)?;
        let make = kind.make()?;
        let body = &bytes[at + 1..];
        let entries = at + kind.len();
        let end = entries_end(bytes, entries);
        self.at = end;
        let view = View {
            scope: scope_of(body),
            cap: cap_of(make, body),
            entries: &bytes[entries..end],
        };
        Some((make, view))
    }
}
