// What is left of a local array.
ghost use Rattle.std.specs.Prelude.{◌≡◌, IfOk, length, unwrap_or, ℕ, List};
ghost use Rattle.cells.specs.Elements.{word_at};
ghost use Rattle.cells.specs.Places.{IsInside, c_place, cell_count};
ghost use Rattle.rebase_writes.specs.Staged.{AreWords, staged_at};

use chunk_cache::Snapshot;
use rebase_writes::Staged;
use std::alloc::{AllocError, Global};
use std::sync::Arc;

/// The staged words over a local array's cells, at the number of the event that puts them.
pub(crate) fn held_over(
    alloc: Global,
    number: u64,
    staged: &Staged,
    base: &Snapshot,
) -> Result<Snapshot, AllocError>
    requires size { length staged.now ≡ cell_count base.now.cells.shape }
    requires words { AreWords base.now.cells.dtype staged.now }
    ensures generation { IfOk result (λ s. s.generation ≡ number) }
    ensures dtype { IfOk result (λ s. s.cells.dtype ≡ base.now.cells.dtype) }
    ensures shape { IfOk result (λ s. s.cells.shape ≡ base.now.cells.shape) }
    ensures words { IfOk result (λ s. (at : List ℕ) → IsInside base.now.cells.shape at
        → word_at s.cells at ≡ unwrap_or (staged_at staged.now (c_place base.now.cells.shape at))
        (word_at base.now.cells at)) }
{
    // A look at the shape, by which it is known how many words there are.
    let _ = base.cells().shape();
    let cells = Arc::new(alloc, staged.over(alloc, base.cells())?)?;
    Ok(Snapshot::new(number, cells))
}
