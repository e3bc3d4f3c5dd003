// A plan, as it is answered.
ghost use Rattle.std.specs.Prelude.{◌≡◌, ◌≤◌, length};

// The options of so many slots from slot 0 on; the others say nothing. The array has room for the longest plan, since
// the library is of fixed memory: it takes none from a heap, and an `ArrayVec` is not `Copy`.
#[derive(Clone, Copy)]
pub struct Plan {
    pub(crate) options: [u8; 48],
    pub(crate) slots: usize,
    ghost within: { (slots ≤ 48) × (length options ≡ 48) },
}
