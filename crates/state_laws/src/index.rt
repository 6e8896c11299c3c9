// Indices of chunks.
ghost use Rattle.std.specs.Prelude.{◌≡◌, ◌≤◌, ◌*◌, ◌-◌, ◌^◌, ◌↔◌, IsTrue, length};
ghost use Rattle.std.specs.List.{AllByRecursion};
ghost use Rattle.history.specs.Chunks.{AreStarts, IsIndexOf};
ghost use Rattle.state_laws.specs.Asked.{IsIndexIn};

use cells::LARGEST_SIZE;
use history::{ArrayInfo, Home};

/// Whether a chunk of this size and index begins at a finite index.
fn begins_finite(size: u64, index: u64) -> bool
    ensures { IsTrue result ↔ (index * size ≤ 2 ^ 62 - 2) }
{
    match index.checked_mul(size) {
        Some(start) => start <= LARGEST_SIZE,
        None => false,
    }
}

/// Whether chunks of these sizes have this index, and begin at a finite index along each dimension.
fn are_starts(sizes: &[u64], chunk: &[u64]) -> bool
    ensures { IsTrue result ↔ ((length chunk.now ≡ length sizes.now) × AreStarts sizes.now chunk.now) }
{
    let [size, sizes @ ..] = sizes else {
        return chunk.is_empty();
    };
    let [index, chunk @ ..] = chunk else {
        return false;
    };
    begins_finite(*size, *index) && are_starts(sizes, chunk)
}

/// Whether this is the index at the origin, of the rank of a shape.
fn is_origin(shape: &[u64], chunk: &[u64]) -> bool
    ensures { IsTrue result ↔ ((length chunk.now ≡ length shape.now) × AllByRecursion (λ c. c ≡ 0) chunk.now) }
{
    let [_, shape @ ..] = shape else {
        return chunk.is_empty();
    };
    let [index, chunk @ ..] = chunk else {
        return false;
    };
    *index == 0 && is_origin(shape, chunk)
}

/// Whether this is the index of a chunk of an array.
fn is_index(home: &Home, shape: &[u64], chunk: &[u64]) -> bool
    ensures { IsTrue result ↔ IsIndexIn home.now shape.now chunk.now }
{
    match home {
        Home::Zarr { meta, .. } => are_starts(meta.chunks.items(), chunk),
        Home::N5 { meta, .. } => are_starts(meta.block.items(), chunk),
        Home::Zarr3 { meta, .. } => are_starts(meta.chunks.items(), chunk),
        Home::Local { .. } => is_origin(shape, chunk),
    }
}

/// Whether this is the index of a chunk of an array, also past its shape.
pub fn is_index_of(info: &ArrayInfo, chunk: &[u64]) -> bool
    ensures { IsTrue result ↔ IsIndexOf info.now chunk.now }
{
    is_index(&info.home, info.shape.items(), chunk)
}
