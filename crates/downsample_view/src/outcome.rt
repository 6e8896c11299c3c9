use cells::{Index, Sizes, Words};

/// What a downsampled domain shows: its lower bounds, its sizes in cells, and its words in C order.
#[derive(Debug, PartialEq, Eq, Drop)]
pub struct Down {
    pub origin: Index,
    pub shape: Sizes,
    pub words: Words,
}
