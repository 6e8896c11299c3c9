// The metadata of an array that is made as it is asked.
ghost use Rattle.std.specs.Prelude.{◌≡◌, ◌≢◌, ◌≤◌, ◌^◌, Ok, Err, IfOk, IfErr, IsTrue, map, max, nat_le, option_map, length};
ghost use Rattle.zarr_chunks.specs.Places.{cell_count};
ghost use Rattle.chunk_forms.specs.Made.{default_chunks};

use std::alloc::{AllocError, Global};
use zarr_chunks::{MOST_CHUNK_CELLS, count_cells};

/// The sizes of a chunk of the whole array, each 0 taken as 1.
///
/// # Errors
/// An allocation failed.
pub fn default_chunks(alloc: Global, shape: &[u64]) -> Result<Vec<u64>, AllocError>
    ensures { IfOk result (λ chunks. chunks.items ≡ default_chunks shape.now) }
{
    shape.iter().map(|size| 1.max(*size)).collect(alloc)
}

/// Whether a chunk of these sizes has at most 2^24 cells.
pub fn is_small(chunks: &[u64]) -> bool
    ensures { result ≡ nat_le (cell_count chunks.now) (2 ^ 24) }
{
    count_cells(chunks, MOST_CHUNK_CELLS).is_some()
}
