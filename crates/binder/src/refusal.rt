// Why a binder refuses a call.
ghost use Rattle.std.specs.Prelude.{◌≡◌};
ghost use Rattle.binder.specs.Refusals.{number_of};

// There is no such sheet or position; there are 72 marks already; there is no mark to undo.
#[derive(Clone, Copy, PartialEq, Debug)]
pub enum BinderRefusal {
    NotThere = 31,
    TooManyMarks = 32,
    NoMark = 33,
}

impl BinderRefusal {
    // The number that a refusal is known by.
    pub fn number(self) -> u8
        ensures { result ≡ number_of self }
    {
        self as u8
    }
}
