// What a turn of an exploration comes to.

// No box was left to explore. Or the next box had no plan in it, and was dropped; or it was split in two; or
// it had one plan in it, and was dropped. Entry s of that plan is the option of slot s. It has an entry for every slot
// that a box covers, however many the planner has: fixed memory, since the library takes none from a heap.
#[derive(Clone, Copy)]
pub enum Outcome {
    Empty,
    Dry,
    Split,
    Found([u8; 48]),
}
