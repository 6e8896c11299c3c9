use cells::List;

/// Where each cell of a view lies, in C order of its domain.
#[derive(Debug, Drop)]
pub struct Targets {
    /// For each cell the number of its leaf, the view's leaves counted from left to right.
    pub leaves: List<u32>,
    /// The cells' index vectors in the arrays of their leaves, one after another.
    pub numbers: List<u64>,
}

// The same while it grows.
#[derive(Drop)]
pub(crate) struct Buffers {
    pub leaves: Vec<u32>,
    pub numbers: Vec<u64>,
}
