use cells::Name;
use chunk_cache::Snapshot;
use chunk_forms::Form;
use rebase_writes::Staged;

/// Words that are staged for a chunk.
#[derive(Clone, Copy)]
pub struct Part<'a> {
    pub array: u64,
    /// The chunk's index.
    pub chunk: &'a [u64],
    /// A word or none for each cell of the chunk, in C order.
    pub staged: &'a Staged,
}

/// What stands under the words that are staged for a chunk, as far as it is known without a call of the store.
#[derive(Debug, Drop)]
pub enum Under {
    /// At each cell of the chunk in the array's shape a word is staged, so that nothing is asked of the chunk that there is.
    Covered,
    /// The chunk as it was kept.
    Kept { snapshot: Snapshot },
    /// The chunk isn't kept, no cell of it lies in the array's shape, or no store holds the array.
    Unknown,
}

/// What a turn tells of a chunk that a commit writes.
#[derive(Drop)]
pub struct Asked<'a> {
    pub part: Part<'a>,
    pub key: Name,
    /// How the chunk is stored, with its array's shape then.
    pub form: Form,
    /// The number of the event that had given the array its shape, 0 where that was its opening.
    pub resized: u64,
    pub under: Under,
}
