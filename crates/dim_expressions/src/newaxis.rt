// The step that puts new dimensions between the others.
ghost use Rattle.std.specs.List.{All, range_with_len};
ghost use Rattle.std.specs.Prelude.{◌+◌, ◌<◌, ◌≡◌, ◌≤◌, IfOk, false, length, map};
ghost use Rattle.index_transform.specs.Transforms.{IsTransform};
ghost use Rattle.dim_changes.specs.Causes.{Gives, over};
ghost use Rattle.dim_changes.specs.Dims.{others, spot_in};
ghost use Rattle.dim_expressions.specs.Newaxis.{axis_by, axis_label_by, new_axis, newaxis_answer, newaxis_view};
ghost use Rattle.step_forms.specs.Selection.{has_repeat};

use crate::left::passed_each;
use cells::{LARGEST_RANK, List, Name};
use dim_changes::{Cause, Fault, copied_label, others, spot_in, stepped};
use index_intervals::Interval;
use index_transform::{Domain, Transform};
use std::alloc::{AllocError, Global};

fn new_axis() -> Interval
    ensures { result ≡ new_axis }
{
    Interval {
        lo: 0,
        hi: 0,
        lo_implicit: true,
        hi_implicit: true,
    }
}

fn axis_at(dims: &[Interval], olds: &[usize], position: usize) -> Interval
    requires { length olds.now ≤ length dims.now }
    ensures { result ≡ axis_by dims.now (spot_in olds.now position) }
{
    match spot_in(olds, position) {
        Some(dim) => dims[dim],
        None => new_axis(),
    }
}

#[tactic(auto, using(dim_changes::proofs::Laws::listed_more))]
fn axes(
    alloc: Global,
    dims: &[Interval],
    olds: &[usize],
    count: usize,
) -> Result<Vec<Interval>, AllocError>
    requires { length olds.now ≤ length dims.now }
    ensures { IfOk result (λ v. v.items ≡ map (λ position.
        axis_by dims.now (spot_in olds.now position)) (range_with_len 0 count)) }
{
    let mut news = Vec::with_capacity(alloc, count)?;
    for position in 0..count {
        news.push(axis_at(dims, olds, position))?;
    }
    Ok(news)
}

fn axis_label(
    alloc: Global,
    labels: &[Name],
    olds: &[usize],
    position: usize,
) -> Result<Name, AllocError>
    requires { length olds.now ≤ length labels.now }
    ensures { IfOk result (λ label. label ≡ axis_label_by labels.now (spot_in olds.now position)) }
{
    match spot_in(olds, position) {
        Some(dim) => copied_label(alloc, &labels[dim]),
        None => Ok(Name::wrap(String::new(alloc))),
    }
}

#[tactic(auto, using(dim_changes::proofs::Laws::listed_more))]
fn axis_labels(
    alloc: Global,
    labels: &[Name],
    olds: &[usize],
    count: usize,
) -> Result<Vec<Name>, AllocError>
    requires { length olds.now ≤ length labels.now }
    ensures { IfOk result (λ v. v.items ≡ map (λ position.
        axis_label_by labels.now (spot_in olds.now position)) (range_with_len 0 count)) }
{
    let mut news = Vec::with_capacity(alloc, count)?;
    for position in 0..count {
        news.push(axis_label(alloc, labels, olds, position)?)?;
    }
    Ok(news)
}

// The domain with a new dimension at each position at which no old one stands.
fn axis_domain(
    alloc: Global,
    u: &Transform,
    spots: &[usize],
    count: usize,
) -> Result<Domain, AllocError>
    requires { length spots.now ≤ length u.now.domain.dims }
    ensures { IfOk result (λ domain. domain ≡ record {
      dims = map (λ position. axis_by u.now.domain.dims (spot_in spots.now position)) (range_with_len 0 count);
      labels = map (λ position. axis_label_by u.now.domain.labels (spot_in spots.now position))
          (range_with_len 0 count);
    }) }
{
    let dims = axes(alloc, u.domain().dims.items(), spots, count)?;
    let labels = axis_labels(alloc, u.domain().labels.items(), spots, count)?;
    Ok(Domain {
        dims: List::wrap(dims),
        labels: List::wrap(labels),
    })
}

// The transform with new dimensions at positions of the result, 32 at most in all.
fn with_axes(alloc: Global, u: &Transform, added: &[usize]) -> Result<Transform, Fault>
    requires known { All (λ dim. dim < length u.now.domain.dims + length added.now) added.now }
    requires once { has_repeat added.now ≡ false }
    requires few { length u.now.domain.dims + length added.now ≤ 32 }
    ensures { Gives u.now (newaxis_view u.now added.now) (over u.now (newaxis_view u.now added.now)) result }
{
    let count = u.domain().dims.items().len() + added.len();
    let spots = others(alloc, added, count)?;
    axes_between(alloc, u, added, &spots, count)
}

// The same with the positions of the old dimensions.
fn axes_between(
    alloc: Global,
    u: &Transform,
    added: &[usize],
    spots: &[usize],
    count: usize,
) -> Result<Transform, Fault>
    requires well_formed { IsTransform u.now }
    requires known { All (λ dim. dim < length u.now.domain.dims + length added.now) added.now }
    requires once { has_repeat added.now ≡ false }
    requires few { length u.now.domain.dims + length added.now ≤ 32 }
    requires count { count ≡ length u.now.domain.dims + length added.now }
    requires spots { spots.now ≡ others added.now count }
    ensures { Gives u.now (newaxis_view u.now added.now) (over u.now (newaxis_view u.now added.now)) result }
{
    let domain = axis_domain(alloc, u, spots, count)?;
    let maps = passed_each(alloc, spots)?;
    stepped(alloc, u, domain, maps)
}

/// The transform with new dimensions of one cell, from 0 to 1, whose bounds are implicit, without labels: nothing depends
/// on them. The selection has their positions in the result.
///
/// # Errors
///
/// The first that holds:
/// - `Rank` where there would be more than 32 dimensions.
/// - `Memory`, which may come before another is seen.
pub(crate) fn newaxis(alloc: Global, u: &Transform, added: &[usize]) -> Result<Transform, Fault>
    requires known { All (λ dim. dim < length u.now.domain.dims + length added.now) added.now }
    requires once { has_repeat added.now ≡ false }
    ensures { Gives u.now (newaxis_view u.now added.now) (newaxis_answer u.now added.now) result }
{
    if u.domain().dims.items().len() + added.len() > LARGEST_RANK {
        return Err(Fault::Refused { cause: Cause::Rank });
    }
    with_axes(alloc, u, added)
}
