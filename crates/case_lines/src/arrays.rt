// Arrays as views name them.
ghost use Rattle.std.specs.Prelude.{◌≡◌, IfOk, length, map, max};
ghost use Rattle.cells.specs.Shapes.{IsShape, IsChunkShape};

use crate::fault::Fault;
use crate::numbers::{dtype, sizes_of};
use crate::reading::member;
use cells::{Dtype, Sizes, is_chunk_shape, is_shape};
use serde_json::Value;
use stack_driver::ArrayRef;
use std::alloc::Global;

/// The array of this number that an object names by `dtype`, `shape`, and `chunk`, which an array of the run has not.
pub fn array_of(alloc: Global, number: u64, v: &Value) -> Result<ArrayRef, Fault> {
    let dtype = dtype(v, "dtype")?;
    match v.get("chunk") {
        Some(chunk) => stored(alloc, number, dtype, member(v, "shape")?, chunk),
        None => local(alloc, number, dtype, member(v, "shape")?),
    }
}

fn stored(
    alloc: Global,
    number: u64,
    dtype: Dtype,
    shape: &Value,
    chunk: &Value,
) -> Result<ArrayRef, Fault> {
    let shape = sizes_of(alloc, shape)?;
    with_chunk(number, dtype, shape, sizes_of(alloc, chunk)?)
}

fn with_chunk(
    number: u64,
    dtype: Dtype,
    shape: Vec<u64>,
    chunk: Vec<u64>,
) -> Result<ArrayRef, Fault> {
    if !is_shape(&shape) || !is_chunk_shape(&chunk) || chunk.len() != shape.len() {
        return Err(Fault::Line);
    }
    Ok(ArrayRef {
        number,
        dtype,
        shape: Sizes::wrap(shape),
        chunk: Sizes::wrap(chunk),
        local: false,
    })
}

fn local(alloc: Global, number: u64, dtype: Dtype, shape: &Value) -> Result<ArrayRef, Fault> {
    let shape = sizes_of(alloc, shape)?;
    one_chunk(alloc, number, dtype, shape)
}

fn one_chunk(alloc: Global, number: u64, dtype: Dtype, shape: Vec<u64>) -> Result<ArrayRef, Fault> {
    let chunk = each_at_least_1(alloc, &shape)?;
    if !is_shape(&shape) || !is_chunk_shape(&chunk) {
        return Err(Fault::Line);
    }
    Ok(ArrayRef {
        number,
        dtype,
        shape: Sizes::wrap(shape),
        chunk: Sizes::wrap(chunk),
        local: true,
    })
}

fn each_at_least_1(alloc: Global, shape: &[u64]) -> Result<Vec<u64>, Fault>
    ensures { IfOk result (λ chunk. chunk.items ≡ map (max 1) shape.now) }
{
    let mut chunk = Vec::with_capacity(alloc, shape.len())?;
    for size in shape {
        chunk.push(1u64.max(*size))?;
    }
    Ok(chunk)
}
