use chunk_plans::{ChunkWrite, Mark};
use history::{Mode, Ops};

/// A transaction as it is to be committed. Of its operations, reads are there under repeatable read alone.
#[derive(Drop)]
pub struct Prepared<'a> {
    /// The line of `begin`.
    pub line: u64,
    pub mode: Mode,
    pub ops: Ops,
    /// What is staged of each chunk that the operations write, in byte order of the keys.
    pub writes: Vec<ChunkWrite<'a>>,
    /// The chunks that were read before the transaction wrote the cell that it read, in byte order of the keys.
    pub footprint: &'a [Mark],
}
