use cells::Name;

/// The generation at which a transaction read a chunk.
#[derive(Debug, Drop)]
pub struct Mark {
    /// The chunk's key.
    pub key: Name,
    pub generation: u64,
}
