// The step that takes the indices of several lists at once.
ghost use Rattle.std.specs.List.{All, list_all, range_with_len};
ghost use Rattle.std.specs.Prelude.{◌+◌, ◌<◌, ◌==◌, ◌≡◌, ◌≤◌, IfOk, None, length, map, true};
ghost use Rattle.dim_changes.specs.Causes.{Gives, first_cause, over};
ghost use Rattle.dim_changes.specs.Dims.{others};
ghost use Rattle.dim_expressions.specs.Arrays.{array_at, array_causes, array_dim};
ghost use Rattle.dim_expressions.specs.Left.{left_map};
ghost use Rattle.dim_expressions.specs.Vindex.{are_joined, built_map, vindex_answer, vindex_view};

use crate::arrays::{array_causes, array_dim, short_map};
use crate::left::{front_domain, left_spot, look_at_dims, passed};
use cells::Index;
use dim_changes::{Cause, Fault, others, spot_in, stepped};
use index_intervals::Interval;
use index_transform::{OutMap, Transform};
use std::alloc::{AllocError, Global};

fn first_length(arrays: &[Index]) -> usize
    ensures { result ≡ length (array_at arrays.now 0) }
{
    match arrays.first() {
        Some(entries) => entries.items().len(),
        None => 0,
    }
}

fn have_length(arrays: &[Index], len: usize) -> bool
    ensures { result ≡ list_all (λ entries. length entries == len) arrays.now }
{
    arrays.iter().all(|entries| entries.items().len() == len)
}

// Whether there is a list for each of some dimensions, all of one length.
fn are_joined(arrays: &[Index], count: usize) -> bool
    ensures { result ≡ are_joined arrays.now count }
{
    count != 0 && arrays.len() == count && have_length(arrays, first_length(arrays))
}

fn built_map(
    alloc: Global,
    selected: &[usize],
    rest: &[usize],
    arrays: &[Index],
    dim: usize,
) -> Result<OutMap, AllocError>
    requires few { 1 + length rest.now ≤ 32 }
    requires same { length arrays.now ≡ length selected.now }
    ensures { IfOk result (λ m. m ≡ left_map selected.now rest.now 1 (built_map (length rest.now) arrays.now) dim) }
{
    match spot_in(selected, dim) {
        Some(spot) => short_map(alloc, 1 + rest.len(), 0, arrays[spot].items()),
        None => Ok(passed(left_spot(rest, 1, dim))),
    }
}

#[tactic(auto, using(dim_changes::proofs::Laws::listed_more))]
fn built_maps(
    alloc: Global,
    rank: usize,
    selected: &[usize],
    rest: &[usize],
    arrays: &[Index],
) -> Result<Vec<OutMap>, AllocError>
    requires few { 1 + length rest.now ≤ 32 }
    requires same { length arrays.now ≡ length selected.now }
    ensures { IfOk result (λ v. v.items ≡ map
        (left_map selected.now rest.now 1 (built_map (length rest.now) arrays.now)) (range_with_len 0 rank)) }
{
    let mut maps = Vec::with_capacity(alloc, rank)?;
    for dim in 0..rank {
        maps.push(built_map(alloc, selected, rest, arrays, dim)?)?;
    }
    Ok(maps)
}

// The dimension of the lists.
fn first_dim(arrays: &[Index]) -> Interval
    requires { 0 < length arrays.now }
    ensures { result ≡ array_dim (array_at arrays.now 0) }
{
    array_dim(arrays[0].items())
}

// The same for lists that no cause is against.
fn joined(
    alloc: Global,
    u: &Transform,
    selected: &[usize],
    arrays: &[Index],
) -> Result<Transform, Fault>
    requires known { All (λ dim. dim < length u.now.domain.dims) selected.now }
    requires joined { are_joined arrays.now (length selected.now) ≡ true }
    requires good { first_cause (array_causes u.now arrays.now selected.now) ≡ None }
    ensures { Gives u.now (vindex_view u.now selected.now arrays.now)
        (over u.now (vindex_view u.now selected.now arrays.now)) result }
{
    let rest = others(alloc, selected, u.domain().dims.items().len())?;
    joined_before(alloc, u, selected, &rest, arrays)
}

// The same with the dimensions that stay.
fn joined_before(
    alloc: Global,
    u: &Transform,
    selected: &[usize],
    rest: &[usize],
    arrays: &[Index],
) -> Result<Transform, Fault>
    requires known { All (λ dim. dim < length u.now.domain.dims) selected.now }
    requires joined { are_joined arrays.now (length selected.now) ≡ true }
    requires good { first_cause (array_causes u.now arrays.now selected.now) ≡ None }
    requires rest { rest.now ≡ others selected.now (length u.now.domain.dims) }
    ensures { Gives u.now (vindex_view u.now selected.now arrays.now)
        (over u.now (vindex_view u.now selected.now arrays.now)) result }
{
    let domain = front_domain(alloc, first_dim(arrays), u, rest)?;
    look_at_dims(&domain);
    let maps = built_maps(alloc, u.domain().dims.items().len(), selected, rest, arrays)?;
    stepped(alloc, u, domain, maps)
}

/// The transform over one first dimension, from 0 on and without a label, in place of all selected ones: its index is the
/// spot in the lists.
///
/// # Errors
///
/// The first that holds:
/// - `Count` where no dimension is selected, lists and selected dimensions differ in number, or lists differ in length.
/// - `OutOfRange` where an entry lies outside the effective interval, with that of the first such selected dimension.
/// - `TooLarge` where an index array of the result has more than 2^22 entries, or a list that an output needs.
/// - `Memory`, which may come before another is seen.
pub(crate) fn vindex(
    alloc: Global,
    u: &Transform,
    selected: &[usize],
    arrays: &[Index],
) -> Result<Transform, Fault>
    requires known { All (λ dim. dim < length u.now.domain.dims) selected.now }
    ensures { Gives u.now (vindex_view u.now selected.now arrays.now)
        (vindex_answer u.now selected.now arrays.now) result }
{
    if !are_joined(arrays, selected.len()) {
        return Err(Fault::Refused {
            cause: Cause::Count,
        });
    }
    if let Some(cause) = array_causes(u, selected, arrays) {
        return Err(Fault::Refused { cause });
    }
    joined(alloc, u, selected, arrays)
}
