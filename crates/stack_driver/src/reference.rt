use cast_driver::{Dtype, Sizes};
use std::marker::Model;

/// An array as a view names it.
///
/// The shape has at most 32 sizes, each at most 2^62 - 2, and the chunk shape as many, each at least 1, with a product of
/// at most 2^24.
///
/// TensorStore, "zarr" driver, "array" driver.
#[derive(Debug, Drop)]
pub struct ArrayRef {
    /// How many arrays were opened before it.
    pub number: u64,
    /// The type of the array's numbers.
    pub dtype: Dtype,
    /// The array's shape as the view knows it, in cells.
    pub shape: Sizes,
    /// The shape of the array's chunks, in cells; a local array's own shape with each 0 taken as 1.
    pub chunk: Sizes,
    /// Whether the run holds the array, and no store. Its domain has explicit bounds then.
    pub local: bool,
}

impl Model for ArrayRef {
    ghost use Rattle.stack_driver.specs.References.{Reference, IsReference};

    ghost Value = { Reference };

    ghost view = { λ r. record {
      number = r.number;
      dtype = r.dtype;
      shape = r.shape;
      chunk = r.chunk;
      local = r.local;
    } };

    ghost invariant = { λ r. IsReference (record {
      number = r.number;
      dtype = r.dtype;
      shape = r.shape;
      chunk = r.chunk;
      local = r.local;
    }) };
}
