ghost use Rattle.std.specs.Prelude.{◌≡◌, ◌<◌, ◌≤◌, ◌^◌, IsTrue, length};
ghost use Rattle.std.specs.List.{All};
ghost use Rattle.cells.specs.Places.{cell_count, index_at};
ghost use Rattle.chunk_grid.specs.Grid.{IsGrid, IsInShape, IsInBox, AreFromZero, numbers, chunk_index, place_within, in_array};
ghost use Rattle.cells.specs.declared.order.Order.TheVariants.{C};

use cells::{LARGEST_RANK, LARGEST_SIZE, MOST_CHUNK_CELLS, Sizes, count_cells};
use std::marker::Model;

/// An array's shape, cut into chunks of one shape, both in cells. The chunk of the index 0 begins at index 0.
///
/// The ranks agree and are at most 32. A size of the array is at most 2^62 - 2, and a chunk has 1 to 2^24 cells. The last
/// chunks along a dimension may reach past the array.
///
/// Zarr version 2, "Chunks"; N5, "block".
#[derive(Debug, PartialEq, Eq, Drop)]
pub struct Grid {
    shape: Sizes,
    chunk: Sizes,
}

impl Model for Grid {
    ghost use Rattle.chunk_grid.specs.Grid.{Shapes, IsGrid};

    ghost Value = { Shapes };

    ghost view = { λ grid. record { shape = grid.shape; chunk = grid.chunk } };

    ghost invariant = { λ grid. IsGrid (record { shape = grid.shape; chunk = grid.chunk }) };

    ghost inverse = { λ shapes. record { shape = shapes.shape; chunk = shapes.chunk } };
}

/// Whether shapes of an array and of its chunks make a grid.
pub fn is_grid(shape: &[u64], chunk: &[u64]) -> bool
    ensures grid { IsTrue result → IsGrid (record { shape = shape.now; chunk = chunk.now }) }
    ensures only { IsGrid (record { shape = shape.now; chunk = chunk.now }) → IsTrue result }
{
    let ranks = shape.len() <= LARGEST_RANK && chunk.len() == shape.len();
    let finite = shape.iter().all(|size| *size <= LARGEST_SIZE);
    let positive = chunk.iter().all(|size| *size > 0);
    ranks && finite && positive && count_cells(chunk, MOST_CHUNK_CELLS).is_some()
}

impl Grid {
    ghost use Rattle.chunk_grid.specs.Grid.{IsGrid};

    /// The grid of an array's shape and a chunk's.
    pub fn new(shape: Sizes, chunk: Sizes) -> Grid
        requires { IsGrid (record { shape = shape; chunk = chunk }) }
        ensures { result ≡ record { shape = shape; chunk = chunk } }
    {
        Grid { shape, chunk }
    }

    /// The array's sizes, in cells.
    pub fn shape(&self) -> &[u64]
        ensures value { result.now ≡ self.now.shape }
        ensures well_formed { IsGrid self.now }
    {
        self.shape.items()
    }

    /// The sizes of a chunk, in cells.
    pub fn chunk(&self) -> &[u64]
        ensures value { result.now ≡ self.now.chunk }
        ensures well_formed { IsGrid self.now }
    {
        self.chunk.items()
    }

    /// Writes the index of the chunk that has a cell of the array.
    pub fn chunk_of(&self, index: &[i64], out: &mut [u64])
        requires inside { IsInShape self.now.shape index.now }
        requires room { length out.old ≡ length self.now.shape }
        ensures value { out.new ≡ chunk_index self.now.chunk (numbers index.now) }
        ensures in_box { IsInBox self.now.chunk out.new (numbers index.now) }
    {
        index_over(self.chunk(), index, out)
    }

    /// The place of a cell of the array in its chunk, in C order.
    pub fn place_in(&self, index: &[i64]) -> usize
        requires { IsInShape self.now.shape index.now }
        ensures value { result ≡ place_within self.now.chunk (numbers index.now) }
        ensures below { result < cell_count self.now.chunk }
        ensures small { result < 2 ^ 24 }
        ensures back { in_array self.now.chunk (chunk_index self.now.chunk (numbers index.now))
            (index_at self.now.chunk C result) ≡ numbers index.now }
    {
        place_over(self.chunk(), index)
    }
}

// The indices divided by the chunk's sizes.
fn index_over(chunk: &[u64], index: &[i64], out: &mut [u64])
    requires positive { All (λ size. 0 < size) chunk.now }
    requires from_zero { AreFromZero index.now }
    requires same { length index.now ≡ length chunk.now }
    requires room { length out.old ≡ length chunk.now }
    ensures { out.new ≡ chunk_index chunk.now (numbers index.now) }
{
    for k in 0..chunk.len() {
        out[k] = index[k] as u64 / chunk[k];
    }
}

// Each size takes what stands before it a whole row further.
fn place_over(chunk: &[u64], index: &[i64]) -> usize
    requires positive { All (λ size. 0 < size) chunk.now }
    requires from_zero { AreFromZero index.now }
    requires same { length index.now ≡ length chunk.now }
    requires small { cell_count chunk.now ≤ 2 ^ 24 }
    ensures { result ≡ place_within chunk.now (numbers index.now) }
{
    let mut place = 0;
    for k in 0..chunk.len() {
        place = place * chunk[k] + index[k] as u64 % chunk[k];
    }
    place as usize
}
