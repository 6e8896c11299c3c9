// The step that puts dimensions in another order.
ghost use Rattle.std.specs.List.{All, range_with_len};
ghost use Rattle.std.specs.Prelude.{◌<◌, ◌≡◌, IfOk, IfSome, OnOk, Some, [], false, length, map, option_map, pos, slice_index_or, unwrap_or};
ghost use Rattle.index_transform.specs.Transforms.{IsTransform};
ghost use Rattle.json_forms.specs.Lists.{all_of};
ghost use Rattle.dim_changes.specs.Causes.{Gives, over};
ghost use Rattle.dim_changes.specs.Dims.{others, spot_in, position_of};
ghost use Rattle.dim_expressions.specs.Left.{passed};
ghost use Rattle.dim_expressions.specs.Transpose.{AreInverse, carried, carried_by, to_targets, transpose_answer, transpose_view};
ghost use Rattle.step_forms.specs.Selection.{has_repeat};

use crate::left::{left_domain, passed_each};
use dim_changes::{Cause, Fault, others, position_of, spot_in, stepped};
use index_transform::{OutMap, Transform};
use std::alloc::{AllocError, Global};
use step_forms::has_repeat;

fn number_at(numbers: &[usize], spot: usize) -> usize
    ensures { result ≡ slice_index_or numbers.now spot 0 }
{
    match numbers.get(spot) {
        Some(number) => *number,
        None => 0,
    }
}

fn spot_or_first(dims: &[usize], dim: usize) -> usize
    ensures { result ≡ unwrap_or (spot_in dims.now dim) 0 }
{
    match spot_in(dims, dim) {
        Some(spot) => spot,
        None => 0,
    }
}

// Where a number goes: what stands in `from` to the same spot of `to`, another from its spot in `rest` to that of `free`.
fn carried(from: &[usize], rest: &[usize], to: &[usize], free: &[usize], x: usize) -> usize
    ensures { result ≡ carried_by rest.now to.now free.now x (spot_in from.now x) }
{
    match spot_in(from, x) {
        Some(spot) => number_at(to, spot),
        None => number_at(free, spot_or_first(rest, x)),
    }
}

#[tactic(auto, using(dim_changes::proofs::Laws::listed_more))]
fn carried_each(
    alloc: Global,
    rank: usize,
    from: &[usize],
    rest: &[usize],
    to: &[usize],
    free: &[usize],
) -> Result<Vec<usize>, AllocError>
    requires rest { rest.now ≡ others from.now rank }
    requires free { free.now ≡ others to.now rank }
    ensures { IfOk result (λ v. v.items ≡ map (carried rank from.now to.now) (range_with_len 0 rank)) }
{
    let mut numbers = Vec::with_capacity(alloc, rank)?;
    for x in 0..rank {
        numbers.push(carried(from, rest, to, free, x))?;
    }
    Ok(numbers)
}

// Where each number below a rank goes.
fn carried_all(
    alloc: Global,
    rank: usize,
    from: &[usize],
    to: &[usize],
) -> Result<Vec<usize>, AllocError>
    ensures { IfOk result (λ v. v.items ≡ map (carried rank from.now to.now) (range_with_len 0 rank)) }
{
    let rest = others(alloc, from, rank)?;
    let free = others(alloc, to, rank)?;
    carried_each(alloc, rank, from, &rest, to, &free)
}

// The position that a target of a list is.
fn target_at(rank: usize, targets: &[i64], spot: usize) -> Option<usize>
    requires { spot < length targets.now }
    ensures value { result ≡ position_of rank (slice_index_or targets.now spot (pos 0)) }
    ensures bound { IfSome result (λ dim. dim < rank) }
{
    position_of(rank, targets[spot])
}

// The positions of a list, where each is one.
fn positions_of(
    alloc: Global,
    rank: usize,
    targets: &[i64],
) -> Result<Option<Vec<usize>>, AllocError>
    ensures value { IfOk result (λ o. option_map (λ v. v.items) o ≡ all_of (position_of rank) targets.now) }
    ensures bound { IfOk result (λ o. IfSome o (λ v. All (λ dim. dim < rank) v.items)) }
{
    let mut positions = Vec::with_capacity(alloc, targets.len())?;
    for k in 0..targets.len() {
        let Some(position) = target_at(rank, targets, k) else {
            return Ok(None);
        };
        positions.push(position)?;
    }
    Ok(Some(positions))
}

// A map from the position of each old dimension.
fn positions_passed(
    alloc: Global,
    rank: usize,
    selected: &[usize],
    targets: &[usize],
) -> Result<Vec<OutMap>, AllocError>
    requires { All (λ position. position < 32) (map (carried rank selected.now targets.now) (range_with_len 0 rank)) }
    ensures { IfOk result (λ v. v.items ≡ map passed
        (map (carried rank selected.now targets.now) (range_with_len 0 rank))) }
{
    let positions = carried_all(alloc, rank, selected, targets)?;
    passed_each(alloc, &positions)
}

// The transform with the selected dimensions at positions, of which none comes twice.
fn transposed(
    alloc: Global,
    u: &Transform,
    selected: &[usize],
    targets: &[usize],
) -> Result<Transform, Fault>
    requires known { All (λ dim. dim < length u.now.domain.dims) selected.now }
    requires once { has_repeat selected.now ≡ false }
    requires known_targets { All (λ dim. dim < length u.now.domain.dims) targets.now }
    requires once_targets { has_repeat targets.now ≡ false }
    requires same { length targets.now ≡ length selected.now }
    ensures outcome { Gives u.now (transpose_view u.now selected.now targets.now)
        (over u.now (transpose_view u.now selected.now targets.now)) result }
    ensures inverse { OnOk result (AreInverse (length u.now.domain.dims) selected.now targets.now) }
{
    let from = carried_all(alloc, u.domain().dims.items().len(), targets, selected)?;
    transposed_from(alloc, u, selected, targets, &from)
}

// The same with the old dimensions in their new order.
fn transposed_from(
    alloc: Global,
    u: &Transform,
    selected: &[usize],
    targets: &[usize],
    from: &[usize],
) -> Result<Transform, Fault>
    requires well_formed { IsTransform u.now }
    requires known { All (λ dim. dim < length u.now.domain.dims) selected.now }
    requires once { has_repeat selected.now ≡ false }
    requires known_targets { All (λ dim. dim < length u.now.domain.dims) targets.now }
    requires once_targets { has_repeat targets.now ≡ false }
    requires same { length targets.now ≡ length selected.now }
    requires from { from.now ≡ map (carried (length u.now.domain.dims) targets.now selected.now)
        (range_with_len 0 (length u.now.domain.dims)) }
    ensures { Gives u.now (transpose_view u.now selected.now targets.now)
        (over u.now (transpose_view u.now selected.now targets.now)) result }
{
    let domain = left_domain(alloc, u, from)?;
    let maps = positions_passed(alloc, u.domain().dims.items().len(), selected, targets)?;
    stepped(alloc, u, domain, maps)
}

// The same, where none comes twice.
fn to_targets(
    alloc: Global,
    u: &Transform,
    selected: &[usize],
    targets: &[usize],
) -> Result<Transform, Fault>
    requires known { All (λ dim. dim < length u.now.domain.dims) selected.now }
    requires once { has_repeat selected.now ≡ false }
    requires known_targets { All (λ dim. dim < length u.now.domain.dims) targets.now }
    requires same { length targets.now ≡ length selected.now }
    ensures { Gives u.now (transpose_view u.now selected.now targets.now)
        (to_targets u.now selected.now (Some targets.now)) result }
{
    if has_repeat(alloc, u.domain().dims.items().len(), targets)? {
        return Err(Fault::Refused {
            cause: Cause::Target,
        });
    }
    transposed(alloc, u, selected, targets)
}

/// The transform with the selected dimensions at target positions, a negative one from the end; the others keep their
/// order.
///
/// # Errors
///
/// The first that holds:
/// - `Count` where targets and selected dimensions differ in number.
/// - `Target` where a target is no position, or comes twice.
/// - `Memory`, which may come before another is seen.
pub(crate) fn transpose(
    alloc: Global,
    u: &Transform,
    selected: &[usize],
    targets: &[i64],
) -> Result<Transform, Fault>
    requires known { All (λ dim. dim < length u.now.domain.dims) selected.now }
    requires once { has_repeat selected.now ≡ false }
    ensures { Gives u.now (transpose_view u.now selected.now
        (unwrap_or (all_of (position_of (length u.now.domain.dims)) targets.now) []))
        (transpose_answer u.now selected.now targets.now) result }
{
    if targets.len() != selected.len() {
        return Err(Fault::Refused {
            cause: Cause::Count,
        });
    }
    let rank = u.domain().dims.items().len();
    match positions_of(alloc, rank, targets)? {
        Some(positions) => to_targets(alloc, u, selected, &positions),
        None => Err(Fault::Refused {
            cause: Cause::Target,
        }),
    }
}
