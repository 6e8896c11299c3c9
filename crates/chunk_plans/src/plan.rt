use cells::{Dense, List, Name};
use chunk_cache::Snapshot;

/// What a commit leaves of a chunk.
#[derive(Drop)]
pub enum Left {
    /// Of a stored array: its bytes, or none where every cell has the fill; and its cells, where they may be kept.
    Stored {
        bytes: Option<List<u8>>,
        cells: Option<Dense>,
    },
    /// Of a local array: its cells.
    Held {
        array: u64,
        cells: Snapshot,
    },
}

/// What a commit leaves of the chunk that has a key.
#[derive(Drop)]
pub struct Planned<'a> {
    /// The number of its array.
    pub array: u64,
    /// The chunk's index.
    pub chunk: &'a [u64],
    pub key: Name,
    pub left: Left,
}
