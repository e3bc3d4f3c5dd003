// The options of a plan.
ghost use Rattle.std.specs.Prelude.{◌≡◌, take};
ghost use Rattle.subject.specs.Wording.{chosen};

use crate::plan::Plan;

impl Plan {
    // The first options of an array, or all where it has no more than `slots`.
    pub fn new(options: [u8; 48], slots: usize) -> Plan
        ensures { chosen result ≡ take slots options }
    {
        let slots = slots.min(48);
        Plan { options, slots }
    }

    // The option of each slot.
    pub fn as_slice(&self) -> &[u8]
        ensures { result.now ≡ chosen self.now }
    {
        &self.options[..self.slots]
    }
}
