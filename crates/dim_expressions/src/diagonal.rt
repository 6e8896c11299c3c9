// The step that takes the cells at which dimensions have the same index.
ghost use Rattle.std.specs.List.{All, range_with_len};
ghost use Rattle.std.specs.Prelude.{◌+◌, ◌<◌, ◌≡◌, ◌≤◌, IfOk, length, map};
ghost use Rattle.dim_changes.specs.Causes.{Gives, over};
ghost use Rattle.dim_changes.specs.Dims.{others};
ghost use Rattle.dim_expressions.specs.Diagonal.{diagonal_answer, diagonal_map, diagonal_view, unbounded};
ghost use Rattle.dim_expressions.specs.Left.{left_map};

use crate::left::{front_domain, left_spot, passed};
use dim_changes::{Cause, Fault, others, spot_in, stepped};
use index_intervals::{INFINITY, Interval};
use index_transform::{OutMap, Transform};
use std::alloc::{AllocError, Global};

fn diagonal_map(selected: &[usize], rest: &[usize], dim: usize) -> OutMap
    requires { 1 + length rest.now ≤ 32 }
    ensures { result ≡ left_map selected.now rest.now 1 diagonal_map dim }
{
    match spot_in(selected, dim) {
        Some(_) => passed(0),
        None => passed(left_spot(rest, 1, dim)),
    }
}

#[tactic(auto, using(dim_changes::proofs::Laws::listed_more))]
fn diagonal_maps(
    alloc: Global,
    rank: usize,
    selected: &[usize],
    rest: &[usize],
) -> Result<Vec<OutMap>, AllocError>
    requires { 1 + length rest.now ≤ 32 }
    ensures { IfOk result (λ v. v.items ≡ map (left_map selected.now rest.now 1 diagonal_map) (range_with_len 0 rank)) }
{
    let mut maps = Vec::with_capacity(alloc, rank)?;
    for dim in 0..rank {
        maps.push(diagonal_map(selected, rest, dim))?;
    }
    Ok(maps)
}

fn unbounded() -> Interval
    ensures { result ≡ unbounded }
{
    Interval {
        lo: -INFINITY,
        hi: INFINITY,
        lo_implicit: true,
        hi_implicit: true,
    }
}

// The same for some selected dimensions. The first dimension is tightened to their meet.
fn met(alloc: Global, u: &Transform, selected: &[usize]) -> Result<Transform, Fault>
    requires known { All (λ dim. dim < length u.now.domain.dims) selected.now }
    requires some { 0 < length selected.now }
    ensures { Gives u.now (diagonal_view u.now selected.now) (over u.now (diagonal_view u.now selected.now)) result }
{
    let rest = others(alloc, selected, u.domain().dims.items().len())?;
    met_before(alloc, u, selected, &rest)
}

// The same with the dimensions that stay.
fn met_before(
    alloc: Global,
    u: &Transform,
    selected: &[usize],
    rest: &[usize],
) -> Result<Transform, Fault>
    requires known { All (λ dim. dim < length u.now.domain.dims) selected.now }
    requires some { 0 < length selected.now }
    requires rest { rest.now ≡ others selected.now (length u.now.domain.dims) }
    ensures { Gives u.now (diagonal_view u.now selected.now) (over u.now (diagonal_view u.now selected.now)) result }
{
    let domain = front_domain(alloc, unbounded(), u, rest)?;
    let maps = diagonal_maps(alloc, u.domain().dims.items().len(), selected, rest)?;
    stepped(alloc, u, domain, maps)
}

/// The transform at the cells at which all selected dimensions have the same index, which a first dimension without a
/// label gives.
///
/// # Errors
///
/// The first that holds:
/// - `Count` where no dimension is selected.
/// - `TooLarge` where an index array of the result has more than 2^22 entries.
/// - `Memory`, which may come before another is seen.
pub(crate) fn diagonal(alloc: Global, u: &Transform, selected: &[usize]) -> Result<Transform, Fault>
    requires { All (λ dim. dim < length u.now.domain.dims) selected.now }
    ensures { Gives u.now (diagonal_view u.now selected.now) (diagonal_answer u.now selected.now) result }
{
    if selected.is_empty() {
        return Err(Fault::Refused {
            cause: Cause::Count,
        });
    }
    met(alloc, u, selected)
}
