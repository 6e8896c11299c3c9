use crate::commit::Commit;
use cells::{Name, Sizes};
use chunk_cache::Snapshot;
use history::Form;

/// The cells that a local array gets.
#[derive(Drop)]
pub struct HeldCells {
    pub array: u64,
    pub cells: Snapshot,
}

/// A commit, or one key of it, that is about to be made.
#[derive(Drop)]
pub struct Deed {
    /// The mount that a failed call is told of.
    pub mount: Name,
    pub commit: Commit,
    /// The keys of the chunks that it touches.
    pub keys: Vec<Name>,
    /// What the local arrays are that it touches.
    pub cells: Vec<HeldCells>,
}

/// A new shape of a stored array that is about to be made.
#[derive(Drop)]
pub struct NewShape {
    /// The mount that a failed call is told of.
    pub mount: Name,
    pub array: u64,
    /// In cells.
    pub shape: Sizes,
    /// How its chunks are stored, by that shape.
    pub form: Form,
    /// The keys of the chunks that it cuts.
    pub keys: Vec<Name>,
}

/// Why a change was not made.
#[derive(Clone, Copy, Debug)]
pub enum ChangeError {
    /// The store failed, which event `event` says.
    StoreFailed { event: u64 },
    /// An allocation failed.
    Memory,
}
