// Which sheets are still to be shown the box.
ghost use Rattle.std.specs.Prelude.{◌≡◌, length};

use boxes::OptionBox;

// A sheet waits where it names a slot that lost an option since it was last shown the box. The sheets are passed in their
// order, round by round, so that one number for each slot tells which these are: the sheet at which it lost an option last.
//
//   sheet:             0   1   2   3   4   5   6
//   slot s, last at:       1                        lost an option in this round; sheet 1 was just shown the box
//   slot t, last at:                   4            lost an option in the round before
//
// Sheets 2 to 6 wait where they name s, and sheets 2 and 3 where they name t: those from 4 on have been passed since then.
// Sheet 0 waits for the next round where it names s. A sheet holds what it left open, and does not wait for its own losses.
#[derive(Drop)]
pub(crate) struct Waiting {
    // the box as it was when its slots were last looked at
    pub(crate) known: OptionBox,
    // slots that lost an option in this round
    pub(crate) fresh: u64,
    // slots that lost an option in the round before
    pub(crate) late: u64,
    // of each slot the sheet at which it lost an option last
    pub(crate) last: [usize; 48],
    ghost long: { length last ≡ 48 },
}
