// Answers of views and cells.
use crate::args::{index, name, numbers, sizes, small, words};
use crate::printing::printed;
use answer_text::Body;
use case_lines::{Fault, dtype, member};
use cells::{Dtype, Index, Name, Sizes};
use index_transform::Transform;
use serde_json::Value;
use std::alloc::Global;
use transform_json::read_transform;

/// An answer of a view, of its numbers, or of a place in it.
pub(crate) fn shown(alloc: Global, line: u64, what: &str, v: &Value) -> Result<String, Fault> {
    match what {
        "OutOfRange" => out_of_range(alloc, line, v, small(v, "dim")?),
        "Uncovered" => uncovered(alloc, line, v),
        "BadValues" => bad_values(alloc, line, v),
        "Values" => values(alloc, line, v, dtype(v, "dtype")?),
        _ => view(alloc, line, what, v, dtype(v, "dtype")?),
    }
}

fn out_of_range(alloc: Global, line: u64, v: &Value, dim: u32) -> Result<String, Fault> {
    let cell = index(alloc, v, "cell")?;
    printed(alloc, line, Body::OutOfRange { cell, dim })
}

fn uncovered(alloc: Global, line: u64, v: &Value) -> Result<String, Fault> {
    let cell = index(alloc, v, "cell")?;
    printed(alloc, line, Body::Uncovered { cell })
}

fn bad_values(alloc: Global, line: u64, v: &Value) -> Result<String, Fault> {
    let path = numbers(alloc, v, "path")?;
    printed(alloc, line, Body::BadValues { path })
}

fn values(alloc: Global, line: u64, v: &Value, dtype: Dtype) -> Result<String, Fault> {
    let origin = index(alloc, v, "origin")?;
    values_at(alloc, line, v, dtype, origin)
}

fn values_at(
    alloc: Global,
    line: u64,
    v: &Value,
    dtype: Dtype,
    origin: Index,
) -> Result<String, Fault> {
    match sizes(alloc, v, "shape") {
        Ok(shape) => values_of(alloc, line, v, dtype, (origin, shape)),
        Err(fault) => Err(fault),
    }
}

fn values_of(
    alloc: Global,
    line: u64,
    v: &Value,
    dtype: Dtype,
    place: (Index, Sizes),
) -> Result<String, Fault> {
    let words = words(alloc, v, "words")?;
    let (origin, shape) = place;
    let body = Body::Values {
        origin,
        shape,
        dtype,
        words,
    };
    printed(alloc, line, body)
}

fn view(alloc: Global, line: u64, what: &str, v: &Value, dtype: Dtype) -> Result<String, Fault> {
    let name = name(alloc, v, "name")?;
    view_of(alloc, line, what, v, dtype, name)
}

fn view_of(
    alloc: Global,
    line: u64,
    what: &str,
    v: &Value,
    dtype: Dtype,
    name: Name,
) -> Result<String, Fault> {
    match transform(alloc, v) {
        Ok(transform) => viewed(alloc, line, what, dtype, name, transform),
        Err(fault) => Err(fault),
    }
}

/// The transform of a line.
pub(crate) fn transform(alloc: Global, v: &Value) -> Result<Transform, Fault> {
    match read_transform(alloc, member(v, "transform")?) {
        Ok(transform) => Ok(transform),
        Err(_) => Err(Fault::Line),
    }
}

fn viewed(
    alloc: Global,
    line: u64,
    what: &str,
    dtype: Dtype,
    name: Name,
    transform: Transform,
) -> Result<String, Fault> {
    let body = if what == "Viewed" {
        Body::Viewed {
            name,
            dtype,
            transform,
        }
    } else {
        Body::Resolved {
            name,
            dtype,
            transform,
        }
    };
    printed(alloc, line, body)
}
