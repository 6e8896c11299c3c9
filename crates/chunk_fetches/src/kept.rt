use cells::{Name, Sizes};
use chunk_cache::Snapshot;
use shared_state::Bounds;

/// A chunk that a transaction keeps, so that it is read as it was then.
#[derive(Debug, Drop)]
pub struct Kept {
    /// The number of the chunk's array, and behind it the chunk's index.
    pub id: Sizes,
    pub key: Name,
    pub snapshot: Snapshot,
    /// The bounds of the chunk's array then.
    pub bounds: Bounds,
    /// The number of events at which the chunk was read.
    pub mark: u64,
}
