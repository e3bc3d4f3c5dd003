// A record of the file: its kind, with the part of the input that is its body.

#[derive(Clone, Copy)]
pub enum Record<'a> {
    Slot(&'a [u8]),
    FitHeader(&'a [u8]),
    BarHeader(&'a [u8]),
    LoadHeader(&'a [u8]),
    Row(&'a [u8]),
    Weight(&'a [u8]),
    End,
}
