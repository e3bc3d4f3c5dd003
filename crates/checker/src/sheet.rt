// The sheet layer: reads a record as an entry, and checks the parts of slots and sheets.
ghost use Rattle.std.specs.Prelude.{◌≡◌, ℕ, ◌+◌, ◌*◌, ◌<◌, ◌≤◌, length, drop, IfOk, nat_eq, nat_lt, slice_index};
ghost use Rattle.std.specs.List.{starts_with};
ghost use Rattle.catalogue.specs.Records.{read_at};
ghost use Rattle.catalogue.specs.Checks.{all, unused, has, has_list, well_scoped, well_filled, well_weighed, weight_of, in_range};
ghost use Rattle.checker.specs.Model.{entered_as, entry_of, BodyLies, parts_from, options_in, scope_read, row_read, weight_read, held_by};

use crate::checks::Check;
use crate::entry::Entry;
use crate::read::read;
use catalogue::fault::Fault;

// What stands in a byte that is not used.
const UNUSED: u8 = 0xFF;

// The least and the greatest weight.
const LIGHTEST: i16 = -30_000;

const HEAVIEST: i16 = 30_000;

// The record at a place, as the sheets see it.
pub(crate) fn entry<'a>(bytes: &'a [u8], at: usize) -> Result<Entry<'a>, Fault>
    ensures is { entered_as result ≡ read_at bytes.now at }
    ensures lies { IfOk result (λ x. BodyLies bytes.now at (entry_of x)) }
{
    let record = read(bytes, at)?;
    Ok(Entry::from(record))
}

// Below, `at` is only where a fault says that the record stands. It goes down with the body, since by a rule of the
// project each layer answers whole faults, which go up by `?`.

// Check 6: how many options a slot has.
pub(crate) fn checked_options(body: &[u8], at: usize) -> Result<u8, Fault>
    requires { length body.now ≡ 1 }
    ensures { result ≡ options_in at body.now }
{
    let n = body[0];
    if n < 1 || n > 32 {
        return Err(Check::Options.at(at));
    }
    Ok(n)
}

// Whether no byte is used.
fn all_unused(bytes: &[u8]) -> bool
    ensures { result ≡ all unused bytes.now }
{
    bytes.iter().all(|b| *b == UNUSED)
}

// Whether each slot is one of the file's, and none is named twice.
fn well_scoped(slots: u8, scope: &[u8]) -> bool
    ensures { result ≡ well_scoped slots scope.now }
{
    let mut left = scope;
    'slots: while let Some((slot, others)) = left.split_first() {
        if *slot >= slots || others.contains(slot) {
            return false;
        }
        left = others;
    }
    true
}

// Checks 7 and 8: the slots that a header names, a part of its body.
pub(crate) fn checked_scope<'a>(body: &'a [u8], slots: u8, at: usize) -> Result<&'a [u8], Fault>
    requires { 9 ≤ length body.now }
    ensures { held_by result ≡ scope_read at slots body.now }
{
    let k = usize::from(body[0]);
    if k < 1 || k > 8 {
        return Err(Check::ScopeLength.at(at));
    }
    if !all_unused(&body[1 + k..9]) {
        return Err(Check::ScopeLength.at(at));
    }
    let scope = &body[1..1 + k];
    if !well_scoped(slots, scope) {
        return Err(Check::Scope.at(at));
    }
    Ok(scope)
}

// Whether a record has a key behind its byte of kind.
fn has_key(bytes: &[u8], key: &[u8]) -> bool
    requires { 0 < length bytes.now }
    ensures { result ≡ starts_with nat_eq (drop 1 bytes.now) key.now }
{
    bytes[1..].starts_with(key)
}

// Whether an earlier record of the sheet has the same key: the records stand from `from` up to `to`,
// `size` bytes each, and a key begins behind the byte of kind. Places are plainer here than the slice between them: only
// this function tests that they are in order, and no caller is asked to know it.
pub(crate) fn stood_before(bytes: &[u8], from: usize, to: usize, size: usize, key: &[u8]) -> bool
    requires within { to ≤ length bytes.now }
    requires short { length key.now < size }
    ensures { (n : ℕ) → from + size * n ≡ to → result ≡ has_list key.now (parts_from bytes.now (length key.now) size from n) }
{
    let Some(earlier) = bytes.get(from..to) else {
        return false;
    };
    earlier
        .chunks_exact(size)
        .any(|record| has_key(record, key))
}

// Whether a weight's amount is in range.
fn in_range(amount: i16) -> bool
    ensures { result ≡ in_range amount }
{
    amount >= LIGHTEST && amount <= HEAVIEST
}

// What the rows and weights of a sheet are held against: how many options each slot of the file has, and
// the slots of the sheet.
#[derive(Clone, Copy)]
pub(crate) struct Frame<'a> {
    pub(crate) options: &'a [u8],
    pub(crate) scope: &'a [u8],
}

impl<'a> Frame<'a> {
    // Whether a slot has an option.
    fn has_option(&self, slot: u8, option: u8) -> bool
        ensures { result ≡ nat_lt option (slice_index self.now.options.now slot) }
    {
        self.options
            .get(usize::from(slot))
            .is_some_and(|n| option < *n)
    }

    // Whether a row has an option for each slot of the scope, and is not used behind them.
    fn well_filled(&self, row: &[u8]) -> bool
        ensures { result ≡ well_filled self.now.options.now self.now.scope.now row.now }
    {
        if row.len() < self.scope.len() {
            return false;
        }
        let (fields, rest) = row.split_at(self.scope.len());
        let mut pairs = self.scope.iter().zip(fields);
        pairs.all(|(slot, option)| self.has_option(*slot, *option)) && all_unused(rest)
    }

    // Check 9: the options that a row has, a part of its body.
    pub(crate) fn checked_row<'b>(&self, body: &'b [u8], at: usize) -> Result<&'b [u8], Fault>
        ensures is { held_by result ≡ row_read at self.now.options.now self.now.scope.now body.now }
        ensures long { IfOk result (λ key. length key.now ≡ length self.now.scope.now) }
        ensures short { IfOk result (λ key. length key.now ≤ length body.now) }
    {
        if !self.well_filled(body) {
            return Err(Check::Row.at(at));
        }
        Ok(&body[..self.scope.len()])
    }

    // Whether a weight is of an option of a slot of the scope, and in range.
    fn well_weighed(&self, body: &[u8]) -> bool
        requires { length body.now ≡ 4 }
        ensures { result ≡ well_weighed self.now.options.now self.now.scope.now (weight_of body.now) }
    {
        let Some(slot) = self.scope.get(usize::from(body[0])) else {
            return false;
        };
        self.has_option(*slot, body[1]) && in_range(i16::from_le_bytes([body[2], body[3]]))
    }

    // Check 11: what a weight is of, its position and option, a part of its body.
    pub(crate) fn checked_weight<'b>(&self, body: &'b [u8], at: usize) -> Result<&'b [u8], Fault>
        requires { length body.now ≡ 4 }
        ensures is { held_by result ≡ weight_read at self.now.options.now self.now.scope.now body.now }
        ensures long { IfOk result (λ key. length key.now ≡ 2) }
    {
        if !self.well_weighed(body) {
            return Err(Check::Weight.at(at));
        }
        Ok(&body[..2])
    }
}
