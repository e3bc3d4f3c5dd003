// Whole files at the limits, to see that they are taken and how long that takes.
ghost use Rattle.std.specs.Prelude.{◌≡◌, ◌+◌, ◌*◌, ◌<◌, ◌≤◌, length, IfOk, vec_len};
ghost use Rattle.catalogue.specs.declared.checked.TheConstants.{LONGEST};

use crate::draft::Draft;
use std::alloc::{AllocError, Global};
use std::array;

// Eight slots in a row, from the first on.
fn slots_from(first: u8) -> [u8; 8]
    requires { first ≤ 40 }
    ensures { length result ≡ 8 }
{
    array::from_fn(|i| first + i as u8)
}

// The row of a number: five times option 31, then the number by its digits to the base 32.
fn numbered(n: u16) -> [u8; 8]
    requires { n < 32768 }
    ensures { length result ≡ 8 }
{
    let high = (n / 1024) as u8;
    let middle = (n / 32 % 32) as u8;
    let low = (n % 32) as u8;
    [31, 31, 31, 31, 31, high, middle, low]
}

impl Draft {
    // So many slots more, each of so many options.
    pub fn slots(self, n: u8, options: u8) -> Result<Draft, AllocError>
        ensures { IfOk result (λ d. vec_len d.bytes ≡ vec_len self.bytes + 2 * n) }
    {
        (0..n).try_fold(self, |draft, _| draft.slot(options))
    }

    // So many rows more, all different up to 32,768.
    pub fn rows(self, n: u16) -> Result<Draft, AllocError>
        ensures { IfOk result (λ d. vec_len d.bytes ≡ vec_len self.bytes + 9 * n) }
    {
        (0..n).try_fold(self, |draft, i| draft.row(&numbered(i % 32768)))
    }

    // So many fit sheets more, of 64 rows each: at most 41, so that a sheet's eight slots are below 48. The next function differs by its make and number of rows; one for both
    // would be no plainer, since the length would then be a product of two numbers that it does not know.
    fn fit_sheets(self, n: u8) -> Result<Draft, AllocError>
        requires { n ≤ 41 }
        ensures { IfOk result (λ d. vec_len d.bytes ≡ vec_len self.bytes + 586 * n) }
    {
        (0..n).try_fold(self, |draft, i| draft.fit(&slots_from(i))?.rows(64))
    }

    // So many bar sheets more, of 96 rows each.
    fn bar_sheets(self, n: u8) -> Result<Draft, AllocError>
        requires { n ≤ 41 }
        ensures { IfOk result (λ d. vec_len d.bytes ≡ vec_len self.bytes + 874 * n) }
    {
        (0..n).try_fold(self, |draft, i| draft.bar(&slots_from(i))?.rows(96))
    }

    // A weight more for each of the 32 options at a position.
    fn weights(self, position: u8) -> Result<Draft, AllocError>
        ensures { IfOk result (λ d. vec_len d.bytes ≡ vec_len self.bytes + 160) }
    {
        (0..32u8).try_fold(
            self,
            |draft, option| draft.weight(position, option, i16::from(option)),
        )
    }

    // A load sheet more, with every weight that it can have.
    fn load_sheet(self, first: u8) -> Result<Draft, AllocError>
        requires { first ≤ 40 }
        ensures { IfOk result (λ d. vec_len d.bytes ≡ vec_len self.bytes + 1294) }
    {
        let header = self.load(&slots_from(first), 100)?;
        (0..8u8).try_fold(header, |draft, position| draft.weights(position))
    }

    // So many load sheets more, with every weight that they can have.
    fn load_sheets(self, n: u8) -> Result<Draft, AllocError>
        requires { n ≤ 41 }
        ensures { IfOk result (λ d. vec_len d.bytes ≡ vec_len self.bytes + 1294 * n) }
    {
        (0..n).try_fold(self, |draft, first| draft.load_sheet(first))
    }
}

// A file of eight slots and one fit sheet that has so many rows.
pub fn one_sheet(heap: Global, rows: u16) -> Result<Draft, AllocError>
    ensures { IfOk result (λ d. vec_len d.bytes ≡ 27 + 9 * rows) }
{
    let draft = Draft::new(heap).slots(8, 32)?;
    draft.fit(&slots_from(0))?.rows(rows)?.end()
}

// A file with as much of everything as a catalogue may have: 48 slots of 32 options, 64 sheets of
// eight slots, 8 of them load sheets with 256 weights each, and 4,096 rows. No accepted file has more bytes.
pub fn largest(heap: Global) -> Result<Draft, AllocError>
    ensures { IfOk result (λ d. vec_len d.bytes ≡ LONGEST) }
{
    let draft = Draft::new(heap).slots(48, 32)?;
    let draft = draft.fit_sheets(40)?.bar_sheets(16)?;
    draft.load_sheets(8)?.end()
}
