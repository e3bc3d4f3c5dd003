// What a checked catalogue shows of one sheet: parts of its bytes.

// The slots that the sheet names, in their order; its cap, or 0 where its make has none, as the definition says;
// and the records between its header and the next header or the end: rows or weights, each with its byte of kind.
#[derive(Clone, Copy)]
pub struct View<'a> {
    pub scope: &'a [u8],
    pub cap: i32,
    pub entries: &'a [u8],
}
