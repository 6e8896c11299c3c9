use crate::snapshot::Snapshot;
use cells::Name;
use thiserror::Error;

/// There was no memory to keep a chunk: its key and its cells, handed back.
#[derive(Debug, Drop, Error)]
#[error("out of memory")]
pub struct KeepRefused {
    pub key: Name,
    pub snapshot: Snapshot,
}
