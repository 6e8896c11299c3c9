// The step that takes the indices of lists.
ghost use Rattle.std.specs.List.{All, range_with_len};
ghost use Rattle.std.specs.Prelude.{◌<◌, ◌≡◌, ◌≤◌, IfOk, None, length, map};
ghost use Rattle.dim_changes.specs.Causes.{Gives, first_cause, over};
ghost use Rattle.dim_expressions.specs.Arrays.{array_causes};
ghost use Rattle.dim_expressions.specs.Oindex.{built_map, indexed_dim, indexed_label, oindex_answer, oindex_view};

use crate::arrays::{array_causes, array_dim, short_map};
use crate::left::{look_at_dims, passed};
use cells::{Index, List, Name};
use dim_changes::{Cause, Fault, copied_label, spot_in, stepped};
use index_intervals::Interval;
use index_transform::{Domain, OutMap, Transform};
use std::alloc::{AllocError, Global};

fn indexed_dim(dims: &[Interval], selected: &[usize], arrays: &[Index], dim: usize) -> Interval
    requires within { dim < length dims.now }
    requires same { length arrays.now ≡ length selected.now }
    ensures { result ≡ indexed_dim dims.now selected.now arrays.now dim }
{
    match spot_in(selected, dim) {
        Some(spot) => array_dim(arrays[spot].items()),
        None => dims[dim],
    }
}

#[tactic(auto, using(dim_changes::proofs::Laws::listed_more))]
fn indexed_dims(
    alloc: Global,
    dims: &[Interval],
    selected: &[usize],
    arrays: &[Index],
) -> Result<Vec<Interval>, AllocError>
    requires same { length arrays.now ≡ length selected.now }
    ensures { IfOk result (λ v. v.items ≡ map (indexed_dim dims.now selected.now arrays.now)
        (range_with_len 0 (length dims.now))) }
{
    let mut news = Vec::with_capacity(alloc, dims.len())?;
    for dim in 0..dims.len() {
        news.push(indexed_dim(dims, selected, arrays, dim))?;
    }
    Ok(news)
}

fn indexed_label(
    alloc: Global,
    labels: &[Name],
    selected: &[usize],
    dim: usize,
) -> Result<Name, AllocError>
    requires { dim < length labels.now }
    ensures { IfOk result (λ label. label ≡ indexed_label labels.now selected.now dim) }
{
    match spot_in(selected, dim) {
        Some(_) => Ok(Name::wrap(String::new(alloc))),
        None => copied_label(alloc, &labels[dim]),
    }
}

#[tactic(auto, using(dim_changes::proofs::Laws::listed_more))]
fn indexed_labels(
    alloc: Global,
    labels: &[Name],
    selected: &[usize],
) -> Result<Vec<Name>, AllocError>
    ensures { IfOk result (λ v. v.items ≡ map (indexed_label labels.now selected.now)
        (range_with_len 0 (length labels.now))) }
{
    let mut news = Vec::with_capacity(alloc, labels.len())?;
    for dim in 0..labels.len() {
        news.push(indexed_label(alloc, labels, selected, dim)?)?;
    }
    Ok(news)
}

fn built_map(
    alloc: Global,
    rank: usize,
    selected: &[usize],
    arrays: &[Index],
    dim: usize,
) -> Result<OutMap, AllocError>
    requires few { rank ≤ 32 }
    requires within { dim < rank }
    requires same { length arrays.now ≡ length selected.now }
    ensures { IfOk result (λ m. m ≡ built_map rank selected.now arrays.now dim) }
{
    match spot_in(selected, dim) {
        Some(spot) => short_map(alloc, rank, dim, arrays[spot].items()),
        None => Ok(passed(dim)),
    }
}

#[tactic(auto, using(dim_changes::proofs::Laws::listed_more))]
fn built_maps(
    alloc: Global,
    rank: usize,
    selected: &[usize],
    arrays: &[Index],
) -> Result<Vec<OutMap>, AllocError>
    requires few { rank ≤ 32 }
    requires same { length arrays.now ≡ length selected.now }
    ensures { IfOk result (λ v. v.items ≡ map (built_map rank selected.now arrays.now) (range_with_len 0 rank)) }
{
    let mut maps = Vec::with_capacity(alloc, rank)?;
    for dim in 0..rank {
        maps.push(built_map(alloc, rank, selected, arrays, dim)?)?;
    }
    Ok(maps)
}

// The domain with a dimension of its own for each list.
fn indexed_domain(
    alloc: Global,
    u: &Transform,
    selected: &[usize],
    arrays: &[Index],
) -> Result<Domain, AllocError>
    requires same { length arrays.now ≡ length selected.now }
    ensures { IfOk result (λ domain. domain ≡ record {
      dims = map (indexed_dim u.now.domain.dims selected.now arrays.now) (range_with_len 0 (length u.now.domain.dims));
      labels = map (indexed_label u.now.domain.labels selected.now) (range_with_len 0 (length u.now.domain.labels));
    }) }
{
    let dims = indexed_dims(alloc, u.domain().dims.items(), selected, arrays)?;
    let labels = indexed_labels(alloc, u.domain().labels.items(), selected)?;
    Ok(Domain {
        dims: List::wrap(dims),
        labels: List::wrap(labels),
    })
}

// The same for lists that no cause is against.
fn indexed(
    alloc: Global,
    u: &Transform,
    selected: &[usize],
    arrays: &[Index],
) -> Result<Transform, Fault>
    requires same { length arrays.now ≡ length selected.now }
    requires good { first_cause (array_causes u.now arrays.now selected.now) ≡ None }
    ensures { Gives u.now (oindex_view u.now selected.now arrays.now)
        (over u.now (oindex_view u.now selected.now arrays.now)) result }
{
    let domain = indexed_domain(alloc, u, selected, arrays)?;
    look_at_dims(&domain);
    let maps = built_maps(alloc, u.domain().dims.items().len(), selected, arrays)?;
    stepped(alloc, u, domain, maps)
}

/// The transform over a dimension of its own, from 0 on and without a label, in place of each selected one: its index is
/// the spot in that dimension's list.
///
/// # Errors
///
/// The first that holds:
/// - `Count` where lists and selected dimensions differ in number.
/// - `OutOfRange` where an entry lies outside the effective interval, with that of the first such selected dimension.
/// - `TooLarge` where an index array of the result has more than 2^22 entries, or a list that an output needs.
/// - `Memory`, which may come before another is seen.
pub(crate) fn oindex(
    alloc: Global,
    u: &Transform,
    selected: &[usize],
    arrays: &[Index],
) -> Result<Transform, Fault>
    requires known { All (λ dim. dim < length u.now.domain.dims) selected.now }
    ensures { Gives u.now (oindex_view u.now selected.now arrays.now)
        (oindex_answer u.now selected.now arrays.now) result }
{
    if arrays.len() != selected.len() {
        return Err(Fault::Refused {
            cause: Cause::Count,
        });
    }
    match array_causes(u, selected, arrays) {
        Some(cause) => Err(Fault::Refused { cause }),
        None => indexed(alloc, u, selected, arrays),
    }
}
