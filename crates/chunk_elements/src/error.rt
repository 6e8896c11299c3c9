use thiserror::Error;

/// Why bytes are no chunk.
#[derive(Clone, Copy, Debug, PartialEq, Eq, Error)]
pub enum ChunkError {
    /// There are `have` bytes; the chunk shape and the dtype want `want`.
    #[error("a chunk of {want} bytes has {have}")]
    WrongLength { have: u64, want: u64 },
    /// An allocation failed.
    #[error("out of memory")]
    Memory,
}
