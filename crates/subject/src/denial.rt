// Why a line or a call gets no answer.
ghost use Rattle.std.specs.Prelude.{◌≡◌};
ghost use Rattle.subject.specs.Refusals.{denial_number};
ghost use Rattle.subject.specs.declared.denial.Denial.TheVariants.{Refused};

use crate::refusal::Refusal;
use std::error::Error;

// The planner or the walk refused the call; or the line was no call, or one that was not possible then.
#[derive(Clone, Copy, PartialEq, Debug)]
pub enum Denial {
    Refused(Refusal),
    NotPossible,
}

impl Denial {
    // The number that a denial is known by.
    pub fn number(self) -> u8
        ensures { result ≡ denial_number self }
    {
        match self {
            Denial::Refused(why) => why.number(),
            Denial::NotPossible => 41,
        }
    }
}

impl From<Refusal> for Denial {
    ghost from_gives = { λ refusal denial. denial ≡ Refused refusal };

    fn from(refusal: Refusal) -> Denial {
        Denial::Refused(refusal)
    }
}

impl Error for Denial {}
