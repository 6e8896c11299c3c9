// Whether staged words lie in the array's shape.
ghost use Rattle.std.specs.Prelude.{◌≡◌, ◌↔◌, ℕ, ◌<◌, ◌≤◌, None, IsTrue, length};
ghost use Rattle.cells.specs.Places.{cell_count};
ghost use Rattle.rebase_writes.specs.Staged.{staged_at};
ghost use Rattle.chunk_laying.specs.Laid.{IsChunkOf, IsStagedWithin};

use crate::rows::{inside_of_row, rows_of};
use rebase_writes::Staged;

/// Whether each staged word is of a cell that lies in the array's shape, so that a commit puts none past it. It takes no memory.
pub fn stays_within(shape: &[u64], chunk_shape: &[u64], chunk: &[u64], staged: &Staged) -> bool
    requires chunk { IsChunkOf shape.now chunk_shape.now chunk.now }
    requires staged { length staged.now ≡ cell_count chunk_shape.now }
    ensures { IsTrue result ↔ IsStagedWithin shape.now chunk_shape.now chunk.now staged.now }
{
    let rows = rows_of(shape, chunk_shape, chunk);
    for row in 0..rows.count {
        let from = row * rows.len;
        let inside = inside_of_row(shape, chunk_shape, chunk, rows, row);
        if !staged.spares_range(from + inside, from + rows.len) {
            return false;
        }
    }
    true
}
