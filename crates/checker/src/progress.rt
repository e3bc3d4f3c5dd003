// What a check has seen so far.
ghost use Rattle.std.specs.Prelude.{◌≤◌};

use catalogue::make::Make;

//   bytes:  slot slot .. | header rows .. | header rows .. | next record
//                                           ^first           ^where the check stands
//                                   scope ^^^ of the newest sheet
#[derive(Clone, Copy)]
pub struct Progress<'a> {
    // How many options each slot has; only the first `slots` count. The table is of fixed size, since the library is of
    // fixed memory: it takes none from a heap, and an `ArrayVec` is not `Copy`.
    pub(crate) options: [u8; 48],
    pub(crate) slots: u8,
    pub(crate) sheets: u8,
    pub(crate) loads: u8,
    pub(crate) rows: u16,
    pub(crate) newest: Option<Newest<'a>>,
    ghost room: { slots ≤ 48 },
}

// The newest sheet: its make, its slots, and where its first row or weight would stand.
#[derive(Clone, Copy)]
pub struct Newest<'a> {
    pub(crate) make: Make,
    pub(crate) scope: &'a [u8],
    pub(crate) first: usize,
}
