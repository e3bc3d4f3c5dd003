// What a refused file is told: which check failed, in which layer of the reader, and where.

// The layer that a check belongs to.
#[derive(Clone, Copy, PartialEq, Debug)]
pub enum Layer {
    Record,
    Sheet,
    Catalogue,
}

// The number of the check that failed, its layer, and the place: the first byte of the record that
// failed it, or for check 14 the first byte behind the end record. The number is a plain one, as whoever mends the
// file reads it; the crate `checker` has the names of the checks.
#[derive(Clone, Copy, PartialEq, Debug)]
pub struct Fault {
    pub number: u8,
    pub layer: Layer,
    pub place: usize,
}
