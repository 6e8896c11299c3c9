// Words of a view's cells, downsampled.
ghost use Rattle.std.specs.Prelude.{◌≡◌, IsTrue, length};
ghost use Rattle.index_transform.specs.Cells.{cells_of};

use crate::refused::Refused;
use crate::view_asking::told;
use case_lines::{sizes, text};
use downsample_view::{Method, are_factors, down};
use index_transform::Transform;
use serde_json::Value;
use stack_driver::{View, dtype, transform_of};
use std::alloc::Global;

// What is left of `words`, one for each cell of the view, by `factors` and a `method`.
pub(crate) fn downsampled(alloc: Global, view: &View, v: &Value) -> Result<String, Refused> {
    let words = sizes(alloc, v, "words")?;
    with_words(alloc, view, &words, v)
}

fn with_words(alloc: Global, view: &View, words: &[u64], v: &Value) -> Result<String, Refused> {
    let method = method(text(v, "method")?)?;
    let factors = sizes(alloc, v, "factors")?;
    with_factors(alloc, view, words, &factors, method)
}

fn method(name: &str) -> Result<Method, Refused> {
    match name {
        "stride" => Ok(Method::Stride),
        "min" => Ok(Method::Min),
        "max" => Ok(Method::Max),
        _ => Err(Refused::Line),
    }
}

fn with_factors(
    alloc: Global,
    view: &View,
    words: &[u64],
    factors: &[u64],
    method: Method,
) -> Result<String, Refused> {
    let t = transform_of(view);
    let dims = t.domain().dims.items();
    if !t.is_finite() || factors.len() != dims.len() || !are_factors(factors) {
        return Err(Refused::Line);
    }
    if !has_count(t, words.len()) {
        return Err(Refused::Line);
    }
    told(
        alloc,
        &down(alloc, t.domain(), dtype(view), words, factors, method)?,
    )
}

// Whether a transform's domain has so many cells, at most 2^22.
fn has_count(t: &Transform, count: usize) -> bool
    ensures { IsTrue result → count ≡ length (cells_of t.now.domain.dims) }
{
    match t.count() {
        Ok(n) => n as usize == count,
        Err(_) => false,
    }
}
