// Flags of bounds.
ghost use Rattle.std.specs.List.{list_any, range_with_len};
ghost use Rattle.std.specs.Prelude.{◌&&◌, ◌<◌, ◌==◌, ◌≡◌, IfErr, IfOk, List, Ok, length, map, not, slice_index_or, ℤ};
ghost use Rattle.transform_composition.specs.Transforms.{KeepsRules};
ghost use Rattle.transform_composition.specs.Values.{value_at};
ghost use Rattle.transform_composition.specs.Reading.{has_array_along};
ghost use Rattle.dim_changes.specs.Causes.{IsFaultOf};
ghost use Rattle.dim_changes.specs.Marks.{has_array_on, makes_implicit, mark_answer, marked, marked_dim, with_marks};

use crate::cause::{Cause, Fault};
use crate::dims::{dim_at, spot_in};
use cells::List;
use index_intervals::Interval;
use std::alloc::{AllocError, Global};
use transform_composition::{Domain, OutMap, Transform, copied_maps, copied_names};

// The bounds with the flags that are given.
fn marked(lower: Option<bool>, upper: Option<bool>, dim: &Interval) -> Interval
    ensures { result ≡ marked lower upper dim.now }
{
    Interval {
        lo: dim.lo,
        hi: dim.hi,
        lo_implicit: lower.unwrap_or(dim.lo_implicit),
        hi_implicit: upper.unwrap_or(dim.hi_implicit),
    }
}

fn marked_dim(
    dims: &[Interval],
    selected: &[usize],
    lower: Option<bool>,
    upper: Option<bool>,
    dim: usize,
) -> Interval
    requires { dim < length dims.now }
    ensures { result ≡ marked_dim dims.now selected.now lower upper dim }
{
    let old = dim_at(dims, dim);
    match spot_in(selected, dim) {
        Some(_) => marked(lower, upper, old),
        None => *old,
    }
}

#[tactic(auto, using(crate::proofs::Lists::listed_more))]
fn marked_dims(
    alloc: Global,
    dims: &[Interval],
    selected: &[usize],
    lower: Option<bool>,
    upper: Option<bool>,
) -> Result<Vec<Interval>, AllocError>
    ensures { IfOk result (λ v. v.items ≡ map (marked_dim dims.now selected.now lower upper)
        (range_with_len 0 (length dims.now))) }
{
    let mut news = Vec::with_capacity(alloc, dims.len())?;
    for dim in 0..dims.len() {
        news.push(marked_dim(dims, selected, lower, upper, dim))?;
    }
    Ok(news)
}

/// Whether the size along the dimension isn't 1.
pub fn varies_along(sizes: &[u64], dim: usize) -> bool
    ensures { result ≡ not (slice_index_or sizes.now dim 1 == 1) }
{
    match sizes.get(dim) {
        Some(size) => *size != 1,
        None => false,
    }
}

fn has_array_along(map: &OutMap, dim: usize) -> bool
    ensures { result ≡ has_array_along dim map.now }
{
    match map {
        OutMap::Indexed { sizes, .. } => varies_along(sizes.items(), dim),
        _ => false,
    }
}

fn is_array_along(maps: &[OutMap], dim: usize) -> bool
    ensures { result ≡ list_any (has_array_along dim) maps.now }
{
    maps.iter().any(|map| has_array_along(map, dim))
}

// Whether an index array depends on one of the dimensions.
fn has_array_on(maps: &[OutMap], selected: &[usize]) -> bool
    ensures { result ≡ has_array_on maps.now selected.now }
{
    selected.iter().any(|dim| is_array_along(maps, *dim))
}

fn makes_implicit(lower: Option<bool>, upper: Option<bool>) -> bool
    ensures { result ≡ makes_implicit lower upper }
{
    lower.unwrap_or(false) || upper.unwrap_or(false)
}

fn is_refused(maps: &[OutMap], selected: &[usize], lower: Option<bool>, upper: Option<bool>) -> bool
    ensures { result ≡ (makes_implicit lower upper && has_array_on maps.now selected.now) }
{
    makes_implicit(lower, upper) && has_array_on(maps, selected)
}

// The domain with the flags that are given.
fn marked_domain(
    alloc: Global,
    t: &Transform,
    selected: &[usize],
    lower: Option<bool>,
    upper: Option<bool>,
) -> Result<Domain, AllocError>
    ensures { IfOk result (λ domain. domain ≡ (with_marks t.now selected.now lower upper).domain) }
{
    let dims = marked_dims(alloc, t.domain().dims.items(), selected, lower, upper)?;
    let labels = copied_names(alloc, t.domain().labels.items())?;
    Ok(Domain {
        dims: List::wrap(dims),
        labels: List::wrap(labels),
    })
}

// The transform of a domain and maps that keep the rules.
fn made(domain: Domain, maps: Vec<OutMap>) -> Transform
    requires { KeepsRules (record { domain = domain; maps = maps.items }) }
    ensures { result ≡ record { domain = domain; maps = maps.items } }
{
    match Transform::new(domain, maps) {
        Ok(t) => t,
        Err(_) => unreachable!(),
    }
}

/// The transform with other flags of the bounds of the selected dimensions; its values stay.
///
/// # Errors
///
/// The first that holds:
/// - `IndexDim` where a bound would become implicit on which an index array depends.
/// - `Memory`, which may come before another is seen.
pub fn with_marks(
    alloc: Global,
    t: &Transform,
    selected: &[usize],
    lower: Option<bool>,
    upper: Option<bool>,
) -> Result<Transform, Fault>
    ensures ok { IfOk result (λ u. mark_answer t.now selected.now lower upper ≡ Ok u) }
    ensures err { IfErr result (λ f. IsFaultOf (mark_answer t.now selected.now lower upper) f) }
    ensures values { IfOk result (λ u. (index : List ℤ) → value_at u index ≡ value_at t.now index) }
{
    if is_refused(t.maps(), selected, lower, upper) {
        return Err(Fault::Refused {
            cause: Cause::IndexDim,
        });
    }
    let domain = marked_domain(alloc, t, selected, lower, upper)?;
    let maps = copied_maps(alloc, t.maps())?;
    Ok(made(domain, maps))
}
