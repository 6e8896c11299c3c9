ghost use Rattle.std.specs.Prelude.{◌≡◌, IfOk};
ghost use Rattle.std.specs.Arc.{arc_value};
ghost use Rattle.chunk_cache.specs.Snapshot.{size_of};

use cells::Dense;
use std::alloc::{AllocError, Global};
use std::marker::Model;
use std::sync::Arc;

/// The cells of a chunk as they were at a generation, which is the number of the last event that had touched the chunk. Who
/// has a snapshot shares the cells; they never change.
#[derive(Debug, Drop)]
pub struct Snapshot {
    generation: u64,
    cells: Arc<Dense, Global>,
}

impl Model for Snapshot {
    ghost use Rattle.std.specs.Arc.{arc_value};
    ghost use Rattle.chunk_cache.specs.Snapshot.{SnapshotCells};

    ghost Value = { SnapshotCells };

    ghost view = { λ snapshot. record { generation = snapshot.generation; cells = arc_value snapshot.cells } };
}

impl Snapshot {
    /// Cells at a generation.
    pub fn new(generation: u64, cells: Arc<Dense, Global>) -> Snapshot
        ensures { result ≡ record { generation = generation; cells = arc_value cells } }
    {
        Snapshot { generation, cells }
    }

    /// The generation.
    pub fn generation(&self) -> u64
        ensures { result ≡ self.now.generation }
    {
        self.generation
    }

    /// The cells.
    pub fn cells(&self) -> &Dense
        ensures { result.now ≡ self.now.cells }
    {
        &self.cells
    }

    /// The same cells at the same generation, without a copy of the cells.
    ///
    /// # Errors
    ///
    /// `AllocError` where there are too many owners.
    pub fn share(&self) -> Result<Snapshot, AllocError>
        ensures { IfOk result (λ snapshot. snapshot ≡ self.now) }
    {
        let cells = Arc::try_clone(&self.cells)?;
        Ok(Snapshot {
            generation: self.generation,
            cells,
        })
    }

    /// How many cells there are.
    pub(crate) fn size(&self) -> u64
        ensures { result ≡ size_of self.now }
    {
        self.cells.count() as u64
    }
}

/// Numbers as the cells of a chunk of this generation.
pub fn as_snapshot(alloc: Global, generation: u64, cells: Dense) -> Result<Snapshot, AllocError>
    ensures { IfOk result (λ s. s ≡ record { generation = generation; cells = cells }) }
{
    match Arc::new(alloc, cells) {
        Ok(cells) => Ok(Snapshot::new(generation, cells)),
        Err(_) => Err(AllocError),
    }
}
