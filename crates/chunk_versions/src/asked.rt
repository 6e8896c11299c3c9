/// A cell of a chunk that a read names, and the word that the read shows.
#[derive(Clone, Copy, Debug)]
pub struct AskedCell {
    /// Its place in the chunk.
    pub place: u32,
    /// Which of the chains of casts it is shown through.
    pub leaf: u32,
    /// What is shown.
    pub word: u64,
}
