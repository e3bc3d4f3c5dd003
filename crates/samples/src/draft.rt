// A catalogue file in the making: each call puts one record more at its end.
ghost use Rattle.std.specs.Prelude.{◌≡◌, ◌+◌, ◌-◌, ◌%◌, ◌≤◌, [], ◌∷◌, ◌++◌, length, take, replicate, IfOk, vec_len, slice_set};
ghost use Rattle.catalogue.specs.Kinds.{code_of};
ghost use Rattle.catalogue.specs.Writing.{padded, two_bytes, four_bytes, slot_bytes, row_bytes};

use catalogue::kind::Kind;
use std::alloc::{AllocError, Global};

// What stands in the bytes that are not used. The checker has its own: files for tests take nothing from the code that
// they test.
static UNUSED: [u8; 8] = [0xFF; 8];

// What stands behind so many used bytes, up to eight bytes in all.
fn unused_behind(used: usize) -> &'static [u8]
    ensures { result.now ≡ replicate (8 - used) 255 }
{
    if used < 8 { &UNUSED[used..] } else { &[] }
}

#[derive(Drop)]
pub struct Draft {
    pub(crate) bytes: Vec<u8>,
}

impl Draft {
    // A file with nothing in it.
    pub fn new(heap: Global) -> Draft
        ensures bytes { result.bytes.items ≡ [] }
        ensures long { vec_len result.bytes ≡ 0 }
    {
        Draft {
            bytes: Vec::new(heap),
        }
    }

    // The bytes so far.
    pub fn as_slice(&self) -> &[u8]
        ensures bytes { result.now ≡ self.now.bytes.items }
        ensures long { length result.now ≡ vec_len self.now.bytes }
    {
        self.bytes.as_slice()
    }

    // Some bytes more, whatever they are.
    pub fn raw(mut self, more: &[u8]) -> Result<Draft, AllocError>
        ensures bytes { IfOk result (λ d. d.bytes.items ≡ self.bytes.items ++ more.now) }
        ensures long { IfOk result (λ d. vec_len d.bytes ≡ vec_len self.bytes + length more.now) }
    {
        self.bytes.extend_from_slice(more)?;
        Ok(self)
    }

    // A slot that has so many options.
    pub fn slot(self, options: u8) -> Result<Draft, AllocError>
        ensures bytes { IfOk result (λ d. d.bytes.items ≡ self.bytes.items ++ slot_bytes options) }
        ensures long { IfOk result (λ d. vec_len d.bytes ≡ vec_len self.bytes + 2) }
    {
        self.raw(&[Kind::Slot.code(), options])
    }

    // Eight bytes: the ones given, and behind them FF.
    fn fields(self, used: &[u8]) -> Result<Draft, AllocError>
        ensures bytes { IfOk result (λ d. d.bytes.items ≡ self.bytes.items ++ padded used.now) }
        ensures long { IfOk result (λ d. (length used.now ≤ 8 → vec_len d.bytes ≡ vec_len self.bytes + 8)) }
    {
        self.raw(used)?.raw(unused_behind(used.len()))
    }

    // A row of the newest sheet: an option for each slot that the sheet names.
    pub fn row(self, options: &[u8]) -> Result<Draft, AllocError>
        ensures bytes { IfOk result (λ d. d.bytes.items ≡ self.bytes.items ++ row_bytes options.now) }
        ensures long { IfOk result (λ d. (length options.now ≤ 8 → vec_len d.bytes ≡ vec_len self.bytes + 9)) }
    {
        self.raw(&[Kind::Row.code()])?.fields(options)
    }

    // A header of a kind, without a cap: so many slots, and which.
    fn header(self, kind: Kind, scope: &[u8]) -> Result<Draft, AllocError>
        ensures bytes { IfOk result (λ d. d.bytes.items ≡ self.bytes.items ++ code_of kind ∷ length scope.now % 256 ∷ padded scope.now) }
        ensures long { IfOk result (λ d. (length scope.now ≤ 8 → vec_len d.bytes ≡ vec_len self.bytes + 10)) }
    {
        self.raw(&[kind.code(), (scope.len() % 256) as u8])?
            .fields(scope)
    }

    // The header of a fit sheet that names these slots.
    pub fn fit(self, scope: &[u8]) -> Result<Draft, AllocError>
        ensures bytes { IfOk result (λ d. d.bytes.items ≡ self.bytes.items ++ 2 ∷ length scope.now % 256 ∷ padded scope.now) }
        ensures long { IfOk result (λ d. (length scope.now ≤ 8 → vec_len d.bytes ≡ vec_len self.bytes + 10)) }
    {
        self.header(Kind::Fit, scope)
    }

    // The header of a bar sheet that names these slots.
    pub fn bar(self, scope: &[u8]) -> Result<Draft, AllocError>
        ensures bytes { IfOk result (λ d. d.bytes.items ≡ self.bytes.items ++ 3 ∷ length scope.now % 256 ∷ padded scope.now) }
        ensures long { IfOk result (λ d. (length scope.now ≤ 8 → vec_len d.bytes ≡ vec_len self.bytes + 10)) }
    {
        self.header(Kind::Bar, scope)
    }

    // The header of a load sheet that names these slots and has this cap.
    pub fn load(self, scope: &[u8], cap: i32) -> Result<Draft, AllocError>
        ensures bytes { IfOk result (λ d. d.bytes.items ≡ self.bytes.items ++ ((4 ∷ length scope.now % 256 ∷ padded scope.now) ++ four_bytes «cap»)) }
        ensures long { IfOk result (λ d. (length scope.now ≤ 8 → vec_len d.bytes ≡ vec_len self.bytes + 14)) }
    {
        self.header(Kind::Load, scope)?.raw(&cap.to_le_bytes())
    }

    // What an option weighs at a position of the newest sheet's scope.
    pub fn weight(self, position: u8, option: u8, amount: i16) -> Result<Draft, AllocError>
        ensures bytes { IfOk result (λ d. d.bytes.items ≡ self.bytes.items ++ 6 ∷ position ∷ option ∷ two_bytes amount) }
        ensures long { IfOk result (λ d. vec_len d.bytes ≡ vec_len self.bytes + 5) }
    {
        self.raw(&[Kind::Weight.code(), position, option])?
            .raw(&amount.to_le_bytes())
    }

    // The end of the file.
    pub fn end(self) -> Result<Draft, AllocError>
        ensures bytes { IfOk result (λ d. d.bytes.items ≡ self.bytes.items ++ 7 ∷ []) }
        ensures long { IfOk result (λ d. vec_len d.bytes ≡ vec_len self.bytes + 1) }
    {
        self.raw(&[Kind::End.code()])
    }

    // The file with one byte changed, if it has a byte at the place.
    pub fn with(mut self, at: usize, byte: u8) -> Draft
        ensures { result.bytes.items ≡ slice_set self.bytes.items at byte }
    {
        if at < self.bytes.len() {
            self.bytes[at] = byte;
        }
        self
    }

    // All but the last byte.
    pub fn cut(mut self) -> Draft
        ensures { result.bytes.items ≡ take (vec_len self.bytes - 1) self.bytes.items }
    {
        let _ = self.bytes.pop();
        self
    }
}
