// Numbers without an order that a reader would see, the same in each run.
ghost use Rattle.std.specs.Prelude.{◌<◌};

#[derive(Clone, Copy)]
pub struct Random {
    state: u32,
}

impl Random {
    pub fn new(seed: u32) -> Random {
        Random { state: seed }
    }

    // A number below `end`, and 0 where there is none.
    pub fn below(&mut self, end: u8) -> u8
        ensures { 0 < end → result < end }
    {
        self.state = self
            .state
            .wrapping_mul(1_664_525)
            .wrapping_add(1_013_904_223);
        let high = (self.state >> 24) as u8;
        if end == 0 { 0 } else { high % end }
    }
}
