// Laws of the definitions alone, each the contract of a function that computes nothing.
ghost use Rattle.subject.specs.Refusals.{DenialsApart};
ghost use Rattle.subject.specs.Law.{Alike, Determinate, Fair};

// The calls determine the decisions that stand, and in a lawful log a call was answered by a refusal exactly
// where it is refused under them.
#[tactic(auto, using(crate::proofs::Standing::determinate, crate::proofs::Standing::fair))]
pub fn decisions_from_calls() -> bool
    ensures determinate { Determinate }
    ensures fair { Fair }
{
    true
}

// Two planners, or two moments of one, at which the same is forbidden cannot be told apart by looking and walking.
#[tactic(auto, using(crate::proofs::Moments::alike))]
pub fn alike_moments() -> bool
    ensures { Alike }
{
    true
}

// A clause that names the number of a refusal or of a denial says which it is.
pub fn denial_by_number() -> bool
    ensures { DenialsApart }
{
    true
}
