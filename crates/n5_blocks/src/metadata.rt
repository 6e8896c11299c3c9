use chunk_elements::{Dtype, Sizes};
use std::marker::Model;

/// The metadata of an array: what stands in its `attributes.json`.
///
/// There are 1 to 32 dimensions, each of at most 2^62 - 2 cells. The block has as many sizes, each from 1 to 2^24, with a
/// product of at most 2^24.
///
/// N5, "attributes.json".
#[derive(Debug, Drop)]
pub struct N5Meta {
    /// The array's sizes, in cells.
    pub dimensions: Sizes,
    /// The sizes of each block, in cells.
    pub block: Sizes,
    /// The type of the elements.
    pub dtype: Dtype,
}

/// What is asked of an array's metadata; what is `None` isn't asked. Each part keeps the rules of metadata, by itself and
/// beside the others.
///
/// N5, "attributes.json".
#[derive(Debug, Drop)]
pub struct N5Want {
    /// The array's sizes, in cells.
    pub dimensions: Option<Sizes>,
    /// The sizes of each block, in cells.
    pub block: Option<Sizes>,
    /// The type of the elements.
    pub dtype: Option<Dtype>,
}

impl Model for N5Meta {
    ghost use Rattle.n5_blocks.specs.Metadata.{Metadata, IsMetadata};

    ghost Value = { Metadata };

    ghost view = { λ m. record {
      dimensions = m.dimensions;
      block = m.block;
      dtype = m.dtype;
    } };

    ghost invariant = { λ m. IsMetadata (record {
      dimensions = m.dimensions;
      block = m.block;
      dtype = m.dtype;
    }) };
}

impl Model for N5Want {
    ghost use Rattle.n5_blocks.specs.Want.{Want, IsWant};

    ghost Value = { Want };

    ghost view = { λ w. record {
      dimensions = w.dimensions;
      block = w.block;
      dtype = w.dtype;
    } };

    ghost invariant = { λ w. IsWant (record {
      dimensions = w.dimensions;
      block = w.block;
      dtype = w.dtype;
    }) };
}
