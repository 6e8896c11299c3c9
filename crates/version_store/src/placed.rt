/// A word for a cell of a chunk.
#[derive(Clone, Copy, Debug)]
pub struct PlacedWord {
    /// The cell's place in the chunk, in C order.
    pub place: u32,
    pub word: u64,
}
