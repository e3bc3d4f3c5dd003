// The catalogue layer: one entry after another, and what may stand where.
ghost use Rattle.std.specs.Prelude.{◌≡◌, ℕ, ◌+◌, ◌^◌, ◌<◌, ◌≤◌, List, length, take, Ok};
ghost use Rattle.catalogue.specs.Records.{slot, header, row, weight, end, judged};
ghost use Rattle.catalogue.specs.Checks.{Said, nothing, content_of, checks};
ghost use Rattle.catalogue.specs.Verdict.{behind, counts_of};
ghost use Rattle.checker.specs.Model.{Part, head_len};
ghost use Rattle.checker.specs.Steps.{Shows, Steps, loads_with};

use crate::checks::Check;
use crate::progress::{Newest, Progress};
use crate::sheet::{Frame, checked_options, checked_scope, stood_before};
use catalogue::counts::Counts;
use catalogue::fault::Fault;
use catalogue::kind::Kind;
use catalogue::make::Make;

// As many slots as a box covers. The crate `boxes` has the number of its own, since files know nothing of boxes.
const SLOTS: u8 = 48;

const SHEETS: u8 = 64;

const LOADS: u8 = 8;

const ROWS: u16 = 4096;

impl<'a> Progress<'a> {
    // Nothing seen yet.
    pub(crate) fn new() -> Progress<'a>
        ensures { (bs : List ℕ) → Shows bs 0 result nothing }
    {
        Progress {
            options: [0; 48],
            slots: 0,
            sheets: 0,
            loads: 0,
            rows: 0,
            newest: None,
        }
    }

    // What records are held against in a sheet with these slots.
    fn frame<'s>(&'s self, scope: &'s [u8]) -> Frame<'s>
        ensures options { result.options.now ≡ take self.now.slots self.now.options }
        ensures scope { result.scope.now ≡ scope.now }
    {
        Frame {
            options: &self.options[..usize::from(self.slots)],
            scope,
        }
    }

    // One slot more. Here and below a place goes down with the body or the bytes, since by a rule of the project each
    // layer answers whole faults, which go up by `?`.
    pub(crate) fn add_slot(&mut self, body: &[u8], at: usize) -> Result<(), Fault>
        requires { length body.now ≡ 1 }
        ensures { (bs : List ℕ) → Steps bs at (slot body.now) result self.old self.new }
    {
        if self.newest.is_some() {
            return Err(Check::InPlace.at(at));
        }
        if self.slots >= SLOTS {
            return Err(Check::WithinLimit.at(at));
        }
        let n = checked_options(body, at)?;
        self.options[usize::from(self.slots)] = n;
        self.slots += 1;
        Ok(())
    }

    // One sheet more, which is the newest from now on.
    pub(crate) fn add_header(&mut self, make: Make, body: &'a [u8], at: usize) -> Result<(), Fault>
        requires size { length body.now ≡ head_len make }
        requires room { at + (head_len make + 1) < 2 ^ 64 }
        ensures { (bs : List ℕ) → Steps bs at (header make body.now) result self.old self.new }
    {
        if self.sheets >= SHEETS {
            return Err(Check::WithinLimit.at(at));
        }
        let Some(loads) = loads_with(self.loads, make) else {
            return Err(Check::WithinLimit.at(at));
        };
        let scope = checked_scope(body, self.slots, at)?;
        self.sheets += 1;
        self.loads = loads;
        let first = at + 1 + body.len();
        self.newest = Some(Newest { make, scope, first });
        Ok(())
    }

    // One row more of the newest sheet.
    pub(crate) fn add_row(&mut self, bytes: &[u8], body: &[u8], at: usize) -> Result<(), Fault>
        requires { Part bytes.now at 8 body.now }
        ensures { Steps bytes.now at (row body.now) result self.old self.new }
    {
        let newest = self.newest;
        let sheet = match newest {
            Some(sheet) if sheet.make != Make::Load => sheet,
            _ => return Err(Check::InPlace.at(at)),
        };
        if self.rows >= ROWS {
            return Err(Check::WithinLimit.at(at));
        }
        let key = self.frame(sheet.scope).checked_row(body, at)?;
        if stood_before(bytes, sheet.first, at, Kind::Row.len(), key) {
            return Err(Check::RowOnce.at(at));
        }
        self.rows += 1;
        Ok(())
    }

    // One weight more of the newest sheet. One function for rows and weights would be no plainer: it would have to ask
    // which key, length and checks are meant.
    pub(crate) fn add_weight(&self, bytes: &[u8], body: &[u8], at: usize) -> Result<(), Fault>
        requires { Part bytes.now at 4 body.now }
        ensures { Steps bytes.now at (weight body.now) result self.now self.now }
    {
        let sheet = match self.newest {
            Some(sheet) if sheet.make == Make::Load => sheet,
            _ => return Err(Check::InPlace.at(at)),
        };
        let key = self.frame(sheet.scope).checked_weight(body, at)?;
        if stood_before(bytes, sheet.first, at, Kind::Weight.len(), key) {
            return Err(Check::WeightOnce.at(at));
        }
        Ok(())
    }

    // The end record: what the file holds.
    pub(crate) fn finish(&self, bytes: &[u8], at: usize) -> Result<Counts, Fault>
        requires { at < length bytes.now }
        ensures { (s : Said) → Shows bytes.now at self.now s → result ≡ judged at (checks (behind bytes.now at) s end) (Ok (counts_of (content_of s))) }
    {
        if self.slots == 0 {
            return Err(Check::SomeSlot.at(at));
        }
        if at + 1 < bytes.len() {
            return Err(Check::NothingBehind.at(at + 1));
        }
        Ok(Counts {
            slots: self.slots,
            sheets: self.sheets,
            rows: self.rows,
        })
    }
}

// How many load sheets there are with one sheet more, if not too many.
fn loads_with(loads: u8, make: Make) -> Option<u8>
    ensures { result ≡ loads_with loads make }
{
    match make {
        Make::Fit | Make::Bar => Some(loads),
        Make::Load if loads < LOADS => Some(loads + 1),
        Make::Load => None,
    }
}
