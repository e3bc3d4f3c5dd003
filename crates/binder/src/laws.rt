// Laws of the definitions alone, each the contract of a function that computes nothing.
ghost use Rattle.binder.specs.Refusals.{RefusalsApart};
ghost use Rattle.binder.specs.Laws.{HeldIsSupported};

// What a binder calls held is what a problem calls supported, where the rule of each sheet is what it keeps.
pub fn held_is_supported() -> bool
    ensures { HeldIsSupported }
{
    true
}

// A clause that names the number of a refusal says which refusal it is.
pub fn refusal_by_number() -> bool
    ensures { RefusalsApart }
{
    true
}
