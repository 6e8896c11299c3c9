// The step that takes one index of each dimension.
ghost use Rattle.std.specs.List.{All, range_with_len};
ghost use Rattle.std.specs.Prelude.{◌<◌, ◌≡◌, ◌≤◌, IfOk, None, length, map, slice_index, true};
ghost use Rattle.dim_changes.specs.Causes.{Gives, first_cause, outside_cause, over};
ghost use Rattle.dim_changes.specs.Dims.{others};
ghost use Rattle.dim_expressions.specs.At.{at_answer, at_cause, at_causes, at_map, at_number, at_view, numbers_count};
ghost use Rattle.dim_expressions.specs.Left.{left_map};

use crate::left::{left_domain, left_spot, passed};
use dim_changes::{Cause, Fault, dim_at, others, spot_in, stepped, with_cause};
use index_intervals::Interval;
use index_transform::{OutMap, Transform, is_effective};
use std::alloc::{AllocError, Global};
use step_forms::Numbers;

// The index for the dimension at a spot of the selection.
fn at_number(by: &Numbers, count: usize, spot: usize) -> i64
    requires counts { numbers_count by.now count ≡ true }
    requires within { spot < count }
    ensures { result ≡ at_number by.now spot }
{
    match by {
        Numbers::All { number } => *number,
        Numbers::Each { numbers } => numbers.items()[spot],
    }
}

fn numbers_count(by: &Numbers, count: usize) -> bool
    ensures { result ≡ numbers_count by.now count }
{
    match by {
        Numbers::All { .. } => true,
        Numbers::Each { numbers } => numbers.items().len() == count,
    }
}

fn outside_cause(dim: &Interval, x: i64) -> Option<Cause>
    ensures { result ≡ outside_cause dim.now x }
{
    if is_effective(dim, x) {
        return None;
    }
    let limits = dim.effective();
    Some(Cause::OutOfRange {
        lo: limits.lo,
        hi: limits.hi,
    })
}

// Why an index isn't one of the dimension at a spot of the selection.
fn at_cause(by: &Numbers, dims: &[Interval], selected: &[usize], spot: usize) -> Option<Cause>
    requires counts { numbers_count by.now (length selected.now) ≡ true }
    requires known { All (λ dim. dim < length dims.now) selected.now }
    requires within { spot < length selected.now }
    ensures { result ≡ at_cause by.now dims.now (spot, slice_index selected.now spot) }
{
    let dim = dim_at(dims, selected[spot]);
    outside_cause(dim, at_number(by, selected.len(), spot))
}

fn at_causes(by: &Numbers, dims: &[Interval], selected: &[usize]) -> Option<Cause>
    requires counts { numbers_count by.now (length selected.now) ≡ true }
    requires known { All (λ dim. dim < length dims.now) selected.now }
    ensures { result ≡ first_cause (at_causes by.now dims.now selected.now) }
{
    let mut cause = None;
    let mut k = selected.len();
    while k > 0 {
        k -= 1;
        cause = with_cause(at_cause(by, dims, selected, k), cause);
    }
    cause
}

fn at_map(selected: &[usize], rest: &[usize], by: &Numbers, dim: usize) -> OutMap
    requires counts { numbers_count by.now (length selected.now) ≡ true }
    requires few { length rest.now ≤ 32 }
    ensures { result ≡ left_map selected.now rest.now 0 (at_map by.now) dim }
{
    match spot_in(selected, dim) {
        Some(spot) => OutMap::Constant {
            offset: at_number(by, selected.len(), spot),
        },
        None => passed(left_spot(rest, 0, dim)),
    }
}

#[tactic(auto, using(dim_changes::proofs::Laws::listed_more))]
fn at_maps(
    alloc: Global,
    rank: usize,
    selected: &[usize],
    rest: &[usize],
    by: &Numbers,
) -> Result<Vec<OutMap>, AllocError>
    requires counts { numbers_count by.now (length selected.now) ≡ true }
    requires few { length rest.now ≤ 32 }
    ensures { IfOk result (λ v. v.items ≡ map (left_map selected.now rest.now 0 (at_map by.now))
        (range_with_len 0 rank)) }
{
    let mut maps = Vec::with_capacity(alloc, rank)?;
    for dim in 0..rank {
        maps.push(at_map(selected, rest, by, dim))?;
    }
    Ok(maps)
}

// The same for indices that no cause is against.
fn taken_at(
    alloc: Global,
    u: &Transform,
    selected: &[usize],
    by: &Numbers,
) -> Result<Transform, Fault>
    requires counts { numbers_count by.now (length selected.now) ≡ true }
    requires good { first_cause (at_causes by.now u.now.domain.dims selected.now) ≡ None }
    ensures { Gives u.now (at_view u.now selected.now by.now) (over u.now (at_view u.now selected.now by.now)) result }
{
    let rest = others(alloc, selected, u.domain().dims.items().len())?;
    taken_from(alloc, u, selected, &rest, by)
}

// The same with the dimensions that stay.
fn taken_from(
    alloc: Global,
    u: &Transform,
    selected: &[usize],
    rest: &[usize],
    by: &Numbers,
) -> Result<Transform, Fault>
    requires counts { numbers_count by.now (length selected.now) ≡ true }
    requires good { first_cause (at_causes by.now u.now.domain.dims selected.now) ≡ None }
    requires rest { rest.now ≡ others selected.now (length u.now.domain.dims) }
    ensures { Gives u.now (at_view u.now selected.now by.now) (over u.now (at_view u.now selected.now by.now)) result }
{
    let domain = left_domain(alloc, u, rest)?;
    let maps = at_maps(alloc, u.domain().dims.items().len(), selected, rest, by)?;
    stepped(alloc, u, domain, maps)
}

/// The transform at one index of each selected dimension, without these dimensions.
///
/// # Errors
///
/// The first that holds:
/// - `Count` where indices and selected dimensions differ in number.
/// - `OutOfRange` where an index lies outside the effective interval, with that of the first such selected dimension.
/// - `Overflow` where an offset passes 64 bits.
/// - `TooLarge` where an index array of the result has more than 2^22 entries.
/// - `Memory`, which may come before another is seen.
pub(crate) fn at(
    alloc: Global,
    u: &Transform,
    selected: &[usize],
    by: &Numbers,
) -> Result<Transform, Fault>
    requires { All (λ dim. dim < length u.now.domain.dims) selected.now }
    ensures { Gives u.now (at_view u.now selected.now by.now) (at_answer u.now selected.now by.now) result }
{
    if !numbers_count(by, selected.len()) {
        return Err(Fault::Refused {
            cause: Cause::Count,
        });
    }
    let dims = u.domain().dims.items();
    if let Some(cause) = at_causes(by, dims, selected) {
        return Err(Fault::Refused { cause });
    }
    taken_at(alloc, u, selected, by)
}
