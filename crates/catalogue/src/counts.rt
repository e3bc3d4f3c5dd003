// How much an accepted catalogue holds.

#[derive(Clone, Copy, PartialEq, Debug)]
pub struct Counts {
    pub slots: u8,
    pub sheets: u8,
    pub rows: u16,
}
