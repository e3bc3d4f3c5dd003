// The options of a cell, one by one.
ghost use Rattle.std.specs.Prelude.{◌≡◌};
ghost use Rattle.std.specs.Iterator.{at_most};
ghost use Rattle.load.specs.Weights.{PeelsOff};

// The options that are left of a cell, each a bit, from the highest to the lowest.
#[derive(Clone, Copy)]
pub(crate) struct Options {
    left: u32,
}

impl Options {
    // The open options of a cell.
    pub(crate) fn of(cell: u32) -> Options
        ensures { result.left ≡ cell }
    {
        Options { left: cell }
    }
}

impl Iterator for Options {
    type Item = u8;

    ghost next_gives = { λ s r t. PeelsOff s.left r t.left };

    ghost remaining = { λ s. at_most s.left };

    fn next(&mut self) -> Option<u8> {
        if self.left == 0 {
            return None;
        }
        let option = self.left.ilog2();
        self.left -= 1 << option;
        Some(option as u8)
    }
}
