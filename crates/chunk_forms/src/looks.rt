// What a form says of its chunks.
ghost use Rattle.std.specs.Prelude.{◌≡◌, ◌≤◌, ◌^◌, length};
ghost use Rattle.zarr_chunks.specs.Places.{cell_count};
ghost use Rattle.chunk_forms.specs.Metadata.{shape_of, chunk_shape_of, dtype_of, fill_of, is_local};

use crate::form::Form;
use zarr_chunks::Dtype;

impl Form {
    /// Whether the chunk is held by the run, and not stored.
    pub fn is_local(&self) -> bool
        ensures { result ≡ is_local self.now }
    {
        match self {
            Form::Local => true,
            _ => false,
        }
    }

    /// The array's shape, in cells.
    pub fn shape(&self) -> &[u64]
        ensures { result.now ≡ shape_of self.now }
    {
        match self {
            Form::Zarr { meta } => meta.shape.items(),
            Form::N5 { meta } => meta.dimensions.items(),
            Form::Zarr3 { meta } => meta.shape.items(),
            Form::Local => &[],
        }
    }

    /// The shape of its chunks, in cells.
    pub fn chunk_shape(&self) -> &[u64]
        ensures value { result.now ≡ chunk_shape_of self.now }
        ensures rank { length result.now ≤ 32 }
        ensures small { cell_count result.now ≤ 2 ^ 24 }
    {
        match self {
            Form::Zarr { meta } => meta.chunks.items(),
            Form::N5 { meta } => meta.block.items(),
            Form::Zarr3 { meta } => meta.chunks.items(),
            Form::Local => &[],
        }
    }

    /// The type of the elements.
    pub fn dtype(&self) -> Dtype
        ensures { result ≡ dtype_of self.now }
    {
        match self {
            Form::Zarr { meta } => meta.dtype,
            Form::N5 { meta } => meta.dtype,
            Form::Zarr3 { meta } => meta.dtype,
            Form::Local => Dtype::U8,
        }
    }

    /// The word of a cell that is in no chunk; 0 where there is no fill.
    pub fn fill(&self) -> u64
        ensures { result ≡ fill_of self.now }
    {
        match self {
            Form::Zarr { meta } => meta.fill.unwrap_or(0),
            Form::N5 { .. } => 0,
            Form::Zarr3 { meta } => meta.fill,
            Form::Local => 0,
        }
    }
}
