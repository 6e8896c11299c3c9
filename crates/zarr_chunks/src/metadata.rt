use chunk_elements::{Dtype, Order, Sizes};
use std::marker::Model;

/// The metadata of an array: what stands in its `.zarray`.
///
/// The shape has at most 32 sizes, each at most 2^62 - 2. The chunk shape has as many, each from 1 to 2^24, with a
/// product of at most 2^24. The fill is a word of the dtype.
///
/// Zarr version 2, "Metadata".
#[derive(Debug, Drop)]
pub struct ZarrMeta {
    /// The array's shape, in cells.
    pub shape: Sizes,
    /// The shape of each chunk, in cells.
    pub chunks: Sizes,
    /// The type of the elements.
    pub dtype: Dtype,
    /// Whether the highest byte of an element stands first. `false` where an element is one byte.
    pub big: bool,
    /// The word of a cell whose chunk isn't stored; `None` is written as null and counts as 0.
    pub fill: Option<u64>,
    /// The order of the elements in a chunk.
    pub order: Order,
    /// Whether "/" stands between the indices of a key, and not ".".
    pub slash: bool,
}

/// What is asked of an array's metadata; what is `None` isn't asked, and a fill may be asked to be null.
///
/// Each part keeps the rules of metadata, by itself and beside the others.
///
/// Zarr version 2, "Metadata".
#[derive(Debug, Drop)]
pub struct ZarrWant {
    /// The array's shape, in cells.
    pub shape: Option<Sizes>,
    /// The shape of each chunk, in cells.
    pub chunks: Option<Sizes>,
    /// The type of the elements.
    pub dtype: Option<Dtype>,
    /// Whether the highest byte of an element stands first.
    pub big: Option<bool>,
    /// The word of a cell whose chunk isn't stored, or null.
    pub fill: Option<Option<u64>>,
    /// The order of the elements in a chunk.
    pub order: Option<Order>,
    /// Whether "/" stands between the indices of a key, and not ".".
    pub slash: Option<bool>,
}

impl Model for ZarrMeta {
    ghost use Rattle.zarr_chunks.specs.Metadata.{Metadata, IsMetadata};

    ghost Value = { Metadata };

    ghost view = { λ m. record {
      shape = m.shape;
      chunks = m.chunks;
      dtype = m.dtype;
      big = m.big;
      fill = m.fill;
      order = m.order;
      slash = m.slash;
    } };

    ghost invariant = { λ m. IsMetadata (record {
      shape = m.shape;
      chunks = m.chunks;
      dtype = m.dtype;
      big = m.big;
      fill = m.fill;
      order = m.order;
      slash = m.slash;
    }) };
}

impl Model for ZarrWant {
    ghost use Rattle.zarr_chunks.specs.Want.{Want, IsWant};

    ghost Value = { Want };

    ghost view = { λ w. record {
      shape = w.shape;
      chunks = w.chunks;
      dtype = w.dtype;
      big = w.big;
      fill = w.fill;
      order = w.order;
      slash = w.slash;
    } };

    ghost invariant = { λ w. IsWant (record {
      shape = w.shape;
      chunks = w.chunks;
      dtype = w.dtype;
      big = w.big;
      fill = w.fill;
      order = w.order;
      slash = w.slash;
    }) };
}
