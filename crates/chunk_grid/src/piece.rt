use cells::{List, Run, Sizes};

/// A chunk of the grid, by its index, and the runs of the view's cells that lie in it.
#[derive(Debug, PartialEq, Eq, Drop)]
pub struct RunPiece {
    pub chunk: Sizes,
    pub runs: List<Run>,
}
