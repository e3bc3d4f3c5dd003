// What the options of a sheet weigh.
ghost use Rattle.std.specs.Prelude.{◌≡◌, ◌<◌};
ghost use Rattle.load.specs.Weights.{weight_of, Small};

// What each of 32 options weighs at one position. It is an array, since the library takes no memory from a heap.
#[derive(Clone, Copy)]
pub(crate) struct Weights {
    pub(crate) amounts: [i16; 32],
}

// The same at each of 8 positions, likewise.
#[derive(Clone, Copy)]
pub(crate) struct Table {
    pub(crate) weights: [Weights; 8],
}

impl Weights {
    // What an option weighs.
    #[tactic(auto, unfolding(crate::specs::Weights::weight_of))]
    pub(crate) fn of(&self, option: u8) -> i32
        requires { option < 32 }
        ensures is { result ≡ weight_of self.now.amounts option }
        ensures small { Small result }
    {
        i32::from(self.amounts[option as usize])
    }
}
