// The rules of shapes.
ghost use Rattle.std.specs.Prelude.{◌≡◌, ◌↔◌, ◌≤◌, ◌-◌, ◌^◌, EachIndex, IsTrue, nat_le, length, slice_index};
ghost use Rattle.std.specs.List.{list_all};
ghost use Rattle.cells.specs.Places.{cell_count, IsInside};
ghost use Rattle.cells.specs.Shapes.{IsShape, IsChunkShape, is_shape, is_chunk_shape, is_inside};

use crate::limits::{LARGEST_RANK, LARGEST_SIZE, MOST_CHUNK_CELLS};
use crate::places::count_cells;

/// Whether these may be the sizes of an array: at most 32 of them, each at most 2^62 - 2.
pub fn is_shape(shape: &[u64]) -> bool
    ensures value { result ≡ is_shape shape.now }
    ensures meaning { IsTrue result ↔ IsShape shape.now }
{
    shape.len() <= LARGEST_RANK && are_at_most(shape, LARGEST_SIZE)
}

/// Whether these may be the sizes of a chunk: each from 1 to 2^24 cells, with a product of at most 2^24.
pub fn is_chunk_shape(chunks: &[u64]) -> bool
    ensures value { result ≡ is_chunk_shape chunks.now }
    ensures meaning { IsTrue result ↔ IsChunkShape chunks.now }
{
    if !are_at_least(chunks, 1) {
        return false;
    }
    if !are_at_most(chunks, MOST_CHUNK_CELLS) {
        return false;
    }
    count_cells(chunks, MOST_CHUNK_CELLS).is_some()
}

/// Whether an index vector lies inside a shape: one index per size, and below it.
pub fn is_inside(shape: &[u64], index: &[u64]) -> bool
    ensures value { result ≡ is_inside shape.now index.now }
    ensures meaning { IsTrue result ↔ IsInside shape.now index.now }
{
    if index.len() != shape.len() {
        return false;
    }
    for k in 0..shape.len() {
        if shape[k] <= index[k] {
            return false;
        }
    }
    true
}

fn are_at_least(sizes: &[u64], least: u64) -> bool
    ensures value { result ≡ list_all (λ size. nat_le least size) sizes.now }
    ensures meaning { IsTrue result ↔ EachIndex sizes.now (λ k. least ≤ slice_index sizes.now k) }
{
    sizes.iter().all(|size| least <= *size)
}

fn are_at_most(sizes: &[u64], most: u64) -> bool
    ensures value { result ≡ list_all (λ size. nat_le size most) sizes.now }
    ensures meaning { IsTrue result ↔ EachIndex sizes.now (λ k. slice_index sizes.now k ≤ most) }
{
    sizes.iter().all(|size| *size <= most)
}
