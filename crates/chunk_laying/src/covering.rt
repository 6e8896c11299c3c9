// Whether staged words leave nothing of a chunk to be read.
ghost use Rattle.std.specs.Prelude.{◌≡◌, ◌↔◌, ℕ, ◌+◌, ◌<◌, ◌≤◌, true, IsSome, IsTrue, length};
ghost use Rattle.cells.specs.Places.{cell_count};
ghost use Rattle.rebase_writes.specs.Staged.{staged_at};
ghost use Rattle.chunk_laying.specs.Laid.{IsChunkOf, IsCovered};
ghost use Rattle.chunk_laying.specs.Rows.{is_place_inside};

use crate::rows::{inside_of_row, rows_of};
use rebase_writes::Staged;

/// Whether each cell of the chunk that lies in the array's shape has a staged word, so that a commit needs nothing of the
/// chunk that there is. It takes no memory.
pub fn covers(shape: &[u64], chunk_shape: &[u64], chunk: &[u64], staged: &Staged) -> bool
    requires chunk { IsChunkOf shape.now chunk_shape.now chunk.now }
    requires staged { length staged.now ≡ cell_count chunk_shape.now }
    ensures { IsTrue result ↔ IsCovered shape.now chunk_shape.now chunk.now staged.now }
{
    let rows = rows_of(shape, chunk_shape, chunk);
    for row in 0..rows.count {
        let from = row * rows.len;
        let inside = inside_of_row(shape, chunk_shape, chunk, rows, row);
        if !staged.covers_range(from, from + inside) {
            return false;
        }
    }
    true
}
