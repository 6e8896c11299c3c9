use cells::{Dense, List, Name};
use rebase_writes::Staged;

/// Bytes of a chunk that were prepared before its commit.
#[derive(Drop)]
pub struct Ready {
    /// The chunk's generation then. `None` where every cell of the chunk in the array's shape is staged, so that it doesn't matter.
    pub generation: Option<u64>,
    /// The number of the event that had given the array its shape, 0 where that was its opening.
    pub resized: u64,
    /// The bytes, or none where every cell has the fill.
    pub bytes: Option<List<u8>>,
    /// The chunk's cells, of which these are the bytes.
    pub cells: Dense,
}

/// What a transaction has staged for a chunk. The transaction keeps it, so that it can be committed again where the store failed.
#[derive(Drop)]
pub struct ChunkWrite<'a> {
    pub array: u64,
    /// The chunk's index.
    pub chunk: &'a [u64],
    pub key: Name,
    /// A word or none for each cell of the chunk, in C order.
    pub staged: &'a Staged,
    pub ready: Option<Ready>,
}
