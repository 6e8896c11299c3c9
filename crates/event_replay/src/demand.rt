use cast_driver::Chain;
use cells::Sizes;
use version_store::AskedCell;

/// Cells of one chunk that a read shows.
#[derive(Debug, Drop)]
pub struct AskedPiece {
    /// The chunk's id: its array's number, and behind it the chunk's index.
    pub id: Sizes,
    /// The cells, with the words that are shown.
    pub asked: Vec<AskedCell>,
}

/// What a read asks of a history: that the cells that no own Write covers were there at a moment, chunk by chunk.
#[derive(Debug, Drop)]
pub struct Demand {
    /// The casts of each leaf, outwards.
    pub casts: Vec<Chain>,
    /// The chunks.
    pub pieces: Vec<AskedPiece>,
}
