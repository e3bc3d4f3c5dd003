// Sets of positions of a scope.
ghost use Rattle.std.specs.Prelude.{◌≡◌, ◌≤◌, ◌<◌, Decides};
ghost use Rattle.std.specs.Iterator.{at_most};
ghost use Rattle.fit.specs.Positions.{FirstOnes, LeftOut, Peels};

// Position p is in a set where bit p is one. As an iterator it gives its positions, from the lowest to the highest.
#[derive(Clone, Copy)]
pub(crate) struct Positions {
    bits: u32,
}

impl Positions {
    // The first n positions.
    #[tactic(auto, using(crate::proofs::Places::first_ones))]
    pub(crate) fn first(n: usize) -> Positions
        requires { n ≤ 8 }
        ensures { FirstOnes n result.bits }
    {
        Positions { bits: (1 << n) - 1 }
    }

    // The others of a set.
    #[tactic(auto, using(crate::proofs::Places::left_out))]
    pub(crate) fn without(self, position: usize) -> Positions
        requires { position < 32 }
        ensures { LeftOut self.bits position result.bits }
    {
        Positions {
            bits: self.bits & !(1 << position),
        }
    }

    // Whether there is no position.
    pub(crate) fn is_empty(&self) -> bool
        ensures { Decides result (self.now.bits ≡ 0) }
    {
        self.bits == 0
    }
}

impl Iterator for Positions {
    type Item = usize;

    ghost next_gives = { λ s r t. Peels s.bits r t.bits };

    ghost remaining = { λ s. at_most s.bits };

    fn next(&mut self) -> Option<usize> {
        let bits = self.bits;
        if bits == 0 {
            return None;
        }
        let position = bits.trailing_zeros() as usize;
        *self = self.without(position);
        Some(position)
    }
}
