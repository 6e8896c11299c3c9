ghost use Rattle.std.specs.Prelude.{◌≡◌, IfOk, IsTrue, None, length};
ghost use Rattle.std.specs.List.{All, list_all};
ghost use Rattle.index_transform.specs.Cells.{cells_of, is_finite};
ghost use Rattle.index_transform.specs.Shapes.{IsInShape};
ghost use Rattle.index_transform.specs.Values.{value_at};

use crate::parts::made;
use crate::told::{after, shown_domain};
use case_lines::{Fault, member, numbers_of, sizes_of, told, transform_text};
use index_transform::{AtError, Domain, Transform, Walk};
use serde_json::Value;
use std::alloc::Global;
use transform_composition::{compose, tighten};
use transform_json::read_transform;

pub(crate) fn answer(alloc: Global, call: &str, v: &Value) -> Result<String, Fault> {
    if call == "new" {
        return new(alloc, v);
    }
    if call == "tighten" {
        return into_outer(alloc, v);
    }
    match read_transform(alloc, member(v, "t")?) {
        Ok(t) => over(alloc, call, &t, v),
        Err(e) => told(alloc, &e),
    }
}

fn new(alloc: Global, v: &Value) -> Result<String, Fault> {
    match made(alloc, v)? {
        Ok(t) => transform_text(alloc, &t),
        Err(e) => told(alloc, &e),
    }
}

fn over(alloc: Global, call: &str, t: &Transform, v: &Value) -> Result<String, Fault> {
    match call {
        "read" => transform_text(alloc, t),
        "maps" => told(alloc, &t.maps()),
        "domain" => shown_domain(alloc, t.domain()),
        "at" => at(alloc, t, member(v, "index")?),
        "count" => told(alloc, &(t.count(), t.is_finite())),
        "walk" => walk(alloc, t),
        "copy" => transform_text(alloc, &t.copy(alloc)?),
        "identity" => identity(alloc, t),
        "leaving" => leaving(alloc, t, member(v, "shape")?),
        "compose" => composed(alloc, t, member(v, "outer")?),
        _ => Err(Fault::Line),
    }
}

pub(crate) fn at(alloc: Global, t: &Transform, index: &Value) -> Result<String, Fault> {
    let index = numbers_of(alloc, index)?;
    told(alloc, &values(alloc, t, &index)?)
}

fn values(alloc: Global, t: &Transform, index: &[i64]) -> Result<Result<Vec<i64>, AtError>, Fault> {
    if index.len() != t.domain().dims.items().len() {
        return Err(Fault::Line);
    }
    Ok(t.at(alloc, index))
}

fn walk(alloc: Global, t: &Transform) -> Result<String, Fault> {
    told(alloc, &cells(alloc, t)?)
}

fn cells(alloc: Global, t: &Transform) -> Result<Vec<Vec<i64>>, Fault> {
    if !t.is_finite() {
        return Err(Fault::Line);
    }
    let mut walk = Walk::new(alloc, t.domain())?;
    walked(alloc, &mut walk, t.domain().dims.items().len())
}

// The walk's cells up to where it answers that there is none, but no more than 100.
fn walked(alloc: Global, walk: &mut Walk, rank: usize) -> Result<Vec<Vec<i64>>, Fault>
    requires { walk.old.rank ≡ rank }
{
    let mut cells = Vec::new(alloc);
    for _ in 0..100 {
        match next(alloc, walk, rank)? {
            Some(cell) => cells.push(cell)?,
            None => break,
        }
    }
    Ok(cells)
}

fn next(alloc: Global, walk: &mut Walk, rank: usize) -> Result<Option<Vec<i64>>, Fault>
    requires { walk.old.rank ≡ rank }
    ensures { walk.new.rank ≡ rank }
{
    let mut cell = Vec::from_elem(alloc, 0, rank)?;
    if walk.advance(&mut cell) {
        Ok(Some(cell))
    } else {
        Ok(None)
    }
}

fn into_outer(alloc: Global, v: &Value) -> Result<String, Fault> {
    match read_transform(alloc, member(v, "outer")?) {
        Ok(outer) => tightened(alloc, outer.domain(), member(v, "t")?),
        Err(e) => told(alloc, &e),
    }
}

fn tightened(alloc: Global, outer: &Domain, v: &Value) -> Result<String, Fault> {
    match read_transform(alloc, v) {
        Ok(mut t) => narrowed(alloc, outer, &mut t),
        Err(e) => told(alloc, &e),
    }
}

fn narrowed(alloc: Global, outer: &Domain, t: &mut Transform) -> Result<String, Fault> {
    let given = tighten(alloc, t, outer);
    after(alloc, &given, t.domain())
}

fn identity(alloc: Global, t: &Transform) -> Result<String, Fault> {
    let domain = t.domain().copy(alloc)?;
    transform_text(alloc, &Transform::identity(alloc, domain)?)
}

// The first output that leaves the shape for some cell.
fn leaving(alloc: Global, t: &Transform, shape: &Value) -> Result<String, Fault> {
    let shape = sizes_of(alloc, shape)?;
    told(alloc, &first_leaving(t, &shape)?)
}

pub(crate) fn first_leaving(t: &Transform, shape: &[u64]) -> Result<Option<u32>, Fault>
    ensures { IfOk result (λ o. (o ≡ None → All (λ cell.
        IsInShape shape.now (value_at t.now cell)) (cells_of t.now.domain.dims))
        × (IsTrue (list_all is_finite t.now.domain.dims)) × (length t.now.maps ≡ length shape.now)) }
{
    if !t.is_finite() || t.maps().len() != shape.len() {
        return Err(Fault::Line);
    }
    Ok(t.first_leaving(shape))
}

fn composed(alloc: Global, inner: &Transform, outer: &Value) -> Result<String, Fault> {
    match read_transform(alloc, outer) {
        Ok(outer) => composition(alloc, &outer, inner),
        Err(e) => told(alloc, &e),
    }
}

fn composition(alloc: Global, outer: &Transform, inner: &Transform) -> Result<String, Fault> {
    match compose(alloc, outer, inner) {
        Ok(t) => transform_text(alloc, &t),
        Err(e) => told(alloc, &e),
    }
}
