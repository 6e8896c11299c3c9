// Dimensions that stay, and new ones before them.
ghost use Rattle.std.specs.List.{All, list_all};
ghost use Rattle.std.specs.Prelude.{◌++◌, ◌+◌, ◌<◌, ◌∷◌, ◌≡◌, ◌≤◌, IfOk, IsTrue, [], length, map, unwrap_or};
ghost use Rattle.index_intervals.specs.Bounds.{are_bounds};
ghost use Rattle.dim_changes.specs.Dims.{dim_at, label_at, spot_in};
ghost use Rattle.dim_expressions.specs.Left.{passed};

use cells::{List, Name};
use dim_changes::{copied_label, dim_at, label_at, spot_in};
use index_intervals::Interval;
use index_transform::{Domain, OutMap, Transform, look_at_all};
use std::alloc::{AllocError, Global};

// New dimensions, and those that stay behind them.
fn left_dims(
    mut news: Vec<Interval>,
    dims: &[Interval],
    rest: &[usize],
) -> Result<Vec<Interval>, AllocError>
    requires { All (λ dim. dim < length dims.now) rest.now }
    ensures { IfOk result (λ v. v.items ≡ news.items ++ map (dim_at dims.now) rest.now) }
{
    for dim in rest {
        news.push(*dim_at(dims, *dim))?;
    }
    Ok(news)
}

// The labels of new dimensions, and of those that stay.
fn left_labels(
    alloc: Global,
    mut news: Vec<Name>,
    labels: &[Name],
    rest: &[usize],
) -> Result<Vec<Name>, AllocError>
    requires { All (λ dim. dim < length labels.now) rest.now }
    ensures { IfOk result (λ v. v.items ≡ news.items ++ map (label_at labels.now) rest.now) }
{
    for dim in rest {
        news.push(copied_label(alloc, label_at(labels, *dim))?)?;
    }
    Ok(news)
}

// The new position of a dimension that stays, behind so many new ones.
pub(crate) fn left_spot(rest: &[usize], news: usize, dim: usize) -> usize
    requires few { news + length rest.now ≤ 32 }
    requires room { news < 32 }
    ensures value { result ≡ news + unwrap_or (spot_in rest.now dim) 0 }
    ensures bound { result < 32 }
{
    match spot_in(rest, dim) {
        Some(spot) => news + spot,
        None => news,
    }
}

// One dimension in front.
fn one_dim(alloc: Global, dim: Interval) -> Result<Vec<Interval>, AllocError>
    ensures { IfOk result (λ v. v.items ≡ dim ∷ []) }
{
    Vec::from_slice(alloc, &[dim])
}

// No label for it.
fn one_label(alloc: Global) -> Result<Vec<Name>, AllocError>
    ensures { IfOk result (λ v. v.items ≡ [] ∷ []) }
{
    let mut labels = Vec::with_capacity(alloc, 1)?;
    labels.push(Name::wrap(String::new(alloc)))?;
    Ok(labels)
}

pub(crate) fn passed(dim: usize) -> OutMap
    requires { dim < 32 }
    ensures { result ≡ passed dim }
{
    OutMap::Strided {
        offset: 0,
        stride: 1,
        dim: dim as u32,
    }
}

// A map from each of these dimensions as it is.
pub(crate) fn passed_each(alloc: Global, dims: &[usize]) -> Result<Vec<OutMap>, AllocError>
    requires { All (λ dim. dim < 32) dims.now }
    ensures { IfOk result (λ v. v.items ≡ map passed dims.now) }
{
    let mut maps = Vec::with_capacity(alloc, dims.len())?;
    for dim in dims {
        maps.push(passed(*dim))?;
    }
    Ok(maps)
}

// The domain of some of the dimensions of a transform, in this order.
pub(crate) fn left_domain(
    alloc: Global,
    u: &Transform,
    rest: &[usize],
) -> Result<Domain, AllocError>
    requires { All (λ dim. dim < length u.now.domain.dims) rest.now }
    ensures { IfOk result (λ domain. domain ≡ record {
      dims = map (dim_at u.now.domain.dims) rest.now;
      labels = map
          (label_at u.now.domain.labels) rest.now;
    }) }
{
    let dims = left_dims(Vec::new(alloc), u.domain().dims.items(), rest)?;
    let labels = left_labels(alloc, Vec::new(alloc), u.domain().labels.items(), rest)?;
    Ok(Domain {
        dims: List::wrap(dims),
        labels: List::wrap(labels),
    })
}

// The same behind a first dimension without a label.
pub(crate) fn front_domain(
    alloc: Global,
    first: Interval,
    u: &Transform,
    rest: &[usize],
) -> Result<Domain, AllocError>
    requires { All (λ dim. dim < length u.now.domain.dims) rest.now }
    ensures { IfOk result (λ domain. domain ≡ record {
      dims = first ∷ map
          (dim_at u.now.domain.dims) rest.now;
      labels = [] ∷ map (label_at u.now.domain.labels) rest.now;
    }) }
{
    let dims = left_dims(one_dim(alloc, first)?, u.domain().dims.items(), rest)?;
    let labels = left_labels(alloc, one_label(alloc)?, u.domain().labels.items(), rest)?;
    Ok(Domain {
        dims: List::wrap(dims),
        labels: List::wrap(labels),
    })
}

// Looks at the dimensions of a domain: what their type says of one then holds of all.
pub(crate) fn look_at_dims(domain: &Domain)
    ensures { IsTrue (list_all are_bounds domain.now.dims) }
{
    look_at_all(domain.dims.items());
}
