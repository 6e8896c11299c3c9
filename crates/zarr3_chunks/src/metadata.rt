use chunk_elements::{Dtype, Sizes};
use std::marker::Model;

/// The metadata of an array.
///
/// Zarr version 3, "Array metadata".
#[derive(Debug, Drop)]
pub struct Zarr3Meta {
    /// The array's sizes, in cells.
    pub shape: Sizes,
    /// The sizes of each chunk, in cells.
    pub chunks: Sizes,
    /// The type of the elements.
    pub dtype: Dtype,
    /// Whether an element has its highest byte first; `false` where it is one byte.
    pub big: bool,
    /// The word of a cell that is in no chunk.
    pub fill: u64,
    /// Whether "." stands between the indices of a key, and not "/".
    pub dot: bool,
}

/// What is asked of an array's metadata; what is `None` isn't asked. Each part keeps the rules of metadata, by itself and
/// beside the others.
#[derive(Debug, Drop)]
pub struct Zarr3Want {
    /// The array's sizes, in cells.
    pub shape: Option<Sizes>,
    /// The sizes of each chunk, in cells.
    pub chunks: Option<Sizes>,
    /// The type of the elements.
    pub dtype: Option<Dtype>,
    /// Whether an element has its highest byte first.
    pub big: Option<bool>,
    /// The word of a cell that is in no chunk.
    pub fill: Option<u64>,
    /// Whether "." stands between the indices of a key, and not "/".
    pub dot: Option<bool>,
}

impl Model for Zarr3Meta {
    ghost use Rattle.zarr3_chunks.specs.Metadata.{Metadata, IsMetadata};

    ghost Value = { Metadata };

    ghost view = { λ m. record {
      shape = m.shape;
      chunks = m.chunks;
      dtype = m.dtype;
      big = m.big;
      fill = m.fill;
      dot = m.dot;
    } };

    ghost invariant = { λ m. IsMetadata (record {
      shape = m.shape;
      chunks = m.chunks;
      dtype = m.dtype;
      big = m.big;
      fill = m.fill;
      dot = m.dot;
    }) };
}

impl Model for Zarr3Want {
    ghost use Rattle.zarr3_chunks.specs.Want.{Want, IsWant};

    ghost Value = { Want };

    ghost view = { λ w. record {
      shape = w.shape;
      chunks = w.chunks;
      dtype = w.dtype;
      big = w.big;
      fill = w.fill;
      dot = w.dot;
    } };

    ghost invariant = { λ w. IsWant (record {
      shape = w.shape;
      chunks = w.chunks;
      dtype = w.dtype;
      big = w.big;
      fill = w.fill;
      dot = w.dot;
    }) };
}
