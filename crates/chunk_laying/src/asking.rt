// Whether numbers are a chunk of an array.
ghost use Rattle.std.specs.Prelude.{◌≡◌, ◌↔◌, IsTrue, length};
ghost use Rattle.cells.specs.Shapes.{IsChunkShape};
ghost use Rattle.history.specs.Chunks.{AreStarts};
ghost use Rattle.chunk_laying.specs.Laid.{IsChunkOf};

use cells::{LARGEST_SIZE, is_chunk_shape};

/// Whether these are the index of a chunk, its shape and a shape of its array: of one rank, and the chunk begins at a finite
/// index along each dimension.
pub fn is_chunk_of(shape: &[u64], chunk_shape: &[u64], chunk: &[u64]) -> bool
    ensures { IsTrue result ↔ IsChunkOf shape.now chunk_shape.now chunk.now }
{
    is_chunk_shape(chunk_shape)
        && shape.len() == chunk_shape.len()
        && chunk.len() == chunk_shape.len()
        && are_starts(chunk_shape, chunk)
}

// Whether the chunk begins at a finite index along each dimension.
fn are_starts(chunk_shape: &[u64], chunk: &[u64]) -> bool
    requires chunks { IsChunkShape chunk_shape.now }
    requires rank { length chunk.now ≡ length chunk_shape.now }
    ensures { IsTrue result ↔ AreStarts chunk_shape.now chunk.now }
{
    for k in 0..chunk_shape.len() {
        if LARGEST_SIZE / chunk_shape[k] < chunk[k] {
            return false;
        }
    }
    true
}
