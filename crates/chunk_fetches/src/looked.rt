use cells::Name;
use chunk_cache::Snapshot;
use shared_state::{Bounds, Look};

/// A look at a chunk in a turn.
#[derive(Debug, Drop)]
pub struct Looked {
    pub key: Name,
    pub look: Look,
}

/// A chunk that a read has fetched.
#[derive(Debug, Drop)]
pub struct Fresh {
    pub key: Name,
    pub snapshot: Snapshot,
    pub bounds: Bounds,
    /// Whether it was decoded for this read, so that the state may keep it.
    pub is_new: bool,
}
