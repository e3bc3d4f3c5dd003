// The checks of a file, and the fault of a record that fails one.
ghost use Rattle.std.specs.Prelude.{◌≡◌};
ghost use Rattle.checker.specs.Faults.{number_of, layer_in, fault_of};

use catalogue::fault::{Fault, Layer};

// In the order of their numbers, from 1 on.
#[derive(Clone, Copy, PartialEq, Eq, Debug)]
pub(crate) enum Check {
    // There is a record, of a kind, and its body is whole.
    RecordLeft = 1,
    KindKnown = 2,
    BodyWhole = 3,
    // It may stand where it does, and is not one too many.
    InPlace = 4,
    WithinLimit = 5,
    // Its parts are well formed, and no record of the sheet is there twice.
    Options = 6,
    ScopeLength = 7,
    Scope = 8,
    Row = 9,
    RowOnce = 10,
    Weight = 11,
    WeightOnce = 12,
    // The end comes behind some slot, and nothing is behind the end.
    SomeSlot = 13,
    NothingBehind = 14,
}

impl Check {
    fn number(self) -> u8
        ensures { result ≡ number_of self }
    {
        self as u8
    }

    // The layer that it belongs to.
    fn layer(self) -> Layer
        ensures { result ≡ layer_in self }
    {
        match self {
            Check::RecordLeft | Check::KindKnown | Check::BodyWhole => Layer::Record,
            Check::InPlace | Check::WithinLimit | Check::SomeSlot | Check::NothingBehind =>
                Layer::Catalogue,
            _ => Layer::Sheet,
        }
    }

    // The fault of a record that fails it, at a place.
    pub(crate) fn at(self, place: usize) -> Fault
        ensures { result ≡ fault_of self place }
    {
        Fault {
            number: self.number(),
            layer: self.layer(),
            place,
        }
    }
}
