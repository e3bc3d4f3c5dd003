// Why a planner or a walk refuses a call.
ghost use Rattle.std.specs.Prelude.{◌≡◌};
ghost use Rattle.subject.specs.Refusals.{number_of};

// There is no such slot; the slot has no such option; the option is not open; sixteen tries stand already;
// no try stands; the plan memory is shorter than the number of slots.
#[derive(Clone, Copy, PartialEq, Debug)]
pub enum Refusal {
    NoSlot = 21,
    NoOption = 22,
    NotOpen = 23,
    TooManyTries = 24,
    NoTry = 25,
    ShortMemory = 26,
}

impl Refusal {
    // The number that a refusal is known by.
    pub fn number(self) -> u8
        ensures { result ≡ number_of self }
    {
        self as u8
    }
}
