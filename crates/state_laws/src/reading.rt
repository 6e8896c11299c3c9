// What reading a chunk gives.
use bytes::Bytes;
use cells::Sizes;
use chunk_cache::Snapshot;
use history::Form;

/// An array's present shape, in cells, and the number of the event that gave it, 0 where that was the array's opening.
#[derive(Debug, Drop)]
pub struct Bounds {
    pub shape: Sizes,
    pub resized: u64,
}

/// A chunk as it is, with its generation, and the bounds of its array.
#[derive(Debug, Drop)]
pub struct Fetched {
    pub snapshot: Snapshot,
    pub bounds: Bounds,
}

/// A chunk that is kept, or its stored bytes.
#[derive(Debug, Drop)]
pub enum Look {
    /// The chunk was kept, or the run holds it.
    Kept {
        snapshot: Snapshot,
        bounds: Bounds,
    },
    /// What the store has under the chunk's key, the form by which it is read, and the chunk's generation.
    Bytes {
        generation: u64,
        form: Form,
        bytes: Option<Bytes>,
        bounds: Bounds,
    },
}
