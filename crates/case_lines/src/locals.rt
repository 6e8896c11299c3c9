// Arrays of the run.
ghost use Rattle.std.specs.Prelude.{◌≡◌, ◌≤◌, ◌^◌, IfOk, IsTrue, length, map, max};
ghost use Rattle.cells.specs.Places.{cell_count};
ghost use Rattle.case_lines.specs.Shapes.{IsLocalShape};

use crate::fault::Fault;
use crate::numbers::{word_of, zero};
use cells::{Dense, Dtype, LARGEST_RANK, MOST_CELLS, MOST_CHUNK_CELLS, count_cells};
use chunk_forms::default_chunks;
use serde_json::Value;
use std::alloc::Global;

/// Whether an array of the run may have the shape.
pub fn may_be_local(alloc: Global, shape: &[u64]) -> Result<bool, Fault>
    ensures { IfOk result (λ b. IsTrue b → IsLocalShape shape.now) }
{
    let ones = default_chunks(alloc, shape)?;
    Ok(are_few(shape, &ones))
}

fn are_few(shape: &[u64], ones: &[u64]) -> bool
    requires { ones.now ≡ map (max 1) shape.now }
    ensures { IsTrue result → IsLocalShape shape.now }
{
    shape.len() <= LARGEST_RANK
        && has_at_most(shape, MOST_CHUNK_CELLS)
        && has_at_most(ones, MOST_CELLS)
}

fn has_at_most(shape: &[u64], limit: u64) -> bool
    ensures { IsTrue result → cell_count shape.now ≤ limit }
{
    match count_cells(shape, limit) {
        Some(_) => true,
        None => false,
    }
}

/// The numbers in a shape.
pub fn dense(alloc: Global, dtype: Dtype, shape: &[u64], numbers: &[Value]) -> Result<Dense, Fault>
    requires { IsLocalShape shape.now }
    ensures { IfOk result (λ d. d.shape ≡ shape.now) }
{
    let mut dense = Dense::filled(alloc, dtype, shape, zero(dtype)?)?;
    if numbers.len() != dense.count() {
        return Err(Fault::Line);
    }
    for place in 0..numbers.len() {
        let word = word_of(dtype, &numbers[place])?;
        dense.set(place, word);
    }
    Ok(dense)
}
