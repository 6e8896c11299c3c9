// Dimensions by their numbers.
ghost use Rattle.std.specs.List.{All};
ghost use Rattle.std.specs.Prelude.{◌<◌, ◌≡◌, ◌≤◌, IfOk, IfSome, length};
ghost use Rattle.dim_changes.specs.Dims.{dim_at, label_at, others, spot_in, position_of};

use cells::Name;
use index_intervals::Interval;
use std::alloc::{AllocError, Global};
use step_forms::{dim_numbered, from_end};

/// A position among so many; a negative one counts from the end.
pub fn position_of(rank: usize, x: i64) -> Option<usize>
    ensures value { result ≡ position_of rank x }
    ensures bound { IfSome result (λ dim. dim < rank) }
{
    dim_numbered(rank, from_end(rank, x))
}

/// Where a dimension stands in a list.
pub fn spot_in(dims: &[usize], dim: usize) -> Option<usize>
    ensures value { result ≡ spot_in dims.now dim }
    ensures bound { IfSome result (λ spot. spot < length dims.now) }
{
    dims.iter().position(|d| *d == dim)
}

/// The dimensions of a rank that aren't in a list, in their order.
pub fn others(alloc: Global, selected: &[usize], rank: usize) -> Result<Vec<usize>, AllocError>
    ensures value { IfOk result (λ v. v.items ≡ others selected.now rank) }
    ensures known { IfOk result (λ v. All (λ dim. dim < rank) v.items) }
    ensures few { IfOk result (λ v. length v.items ≤ rank) }
{
    let mut rest = Vec::new(alloc);
    for dim in 0..rank {
        if spot_in(selected, dim).is_none() {
            rest.push(dim)?;
        }
    }
    Ok(rest)
}

/// The label of a dimension.
pub fn label_at(labels: &[Name], dim: usize) -> &Name
    requires { dim < length labels.now }
    ensures { result.now ≡ label_at labels.now dim }
{
    &labels[dim]
}

/// The interval of a dimension.
pub fn dim_at(dims: &[Interval], dim: usize) -> &Interval
    requires { dim < length dims.now }
    ensures { result.now ≡ dim_at dims.now dim }
{
    &dims[dim]
}

/// A label of its own.
pub fn copied_label(alloc: Global, label: &Name) -> Result<Name, AllocError>
    ensures { IfOk result (λ copy. copy ≡ label.now) }
{
    Ok(Name::wrap(String::from_str(alloc, label.items())?))
}
