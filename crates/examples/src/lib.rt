// Worked examples of the planner's definitions, as one theorem: the contract of a function that computes nothing.
#![tactic(auto)]

ghost use Rattle.examples.specs.Cases.{WorkedExamples};

// What is open, which plans there are and what is refused, of some small catalogues.
pub fn worked_examples() -> bool
    ensures { WorkedExamples }
{
    true
}
