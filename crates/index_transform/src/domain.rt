ghost use Rattle.std.specs.Prelude.{◌≡◌, true, IfOk, IsTrue};
ghost use Rattle.std.specs.List.{list_all};
ghost use Rattle.index_intervals.specs.Bounds.{are_bounds};
ghost use Rattle.index_transform.specs.Maps.{are_labels};

use cells::{LONGEST_LABEL, List, Name};
use index_intervals::Interval;
use std::alloc::{AllocError, Global};

/// The index vectors that have an index of each interval, one per dimension, and a label per dimension.
///
/// An empty label means none.
///
/// TensorStore, "Index space", "Index domain".
#[derive(Debug, PartialEq, Eq, Drop)]
pub struct Domain {
    pub dims: List<Interval>,
    pub labels: List<Name>,
}

impl Domain {
    /// A domain equal to this one.
    pub fn copy(&self, alloc: Global) -> Result<Domain, AllocError>
        ensures { IfOk result (λ copy. copy ≡ self.now) }
    {
        let labels = copied_names(alloc, self.labels.items())?;
        Ok(Domain {
            dims: List::wrap(Vec::from_slice(alloc, self.dims.items())?),
            labels: List::wrap(labels),
        })
    }
}

/// Names equal to others.
pub fn copied_names(alloc: Global, names: &[Name]) -> Result<Vec<Name>, AllocError>
    ensures { IfOk result (λ copies. copies.items ≡ names.now) }
{
    let mut copies = Vec::with_capacity(alloc, names.len())?;
    for name in names {
        copies.push(Name::wrap(String::from_str(alloc, name.items())?))?;
    }
    Ok(copies)
}

/// Looks at each interval of a list: what its type says of one then holds of all.
pub fn look_at_all(dims: &[Interval])
    ensures { IsTrue (list_all are_bounds dims.now) }
{
    for dim in dims {
        look_at(dim);
    }
}

fn look_at(dim: &Interval)
    ensures { are_bounds dim.now ≡ true }
{
    let _ = &dim.lo;
}

/// Whether no label has more than 64 bytes, and none that isn't empty comes twice.
pub fn are_labels(labels: &[Name]) -> bool
    ensures { result ≡ are_labels labels.now }
{
    for (i, label) in labels.iter().enumerate() {
        let (_, others) = labels.split_at(i + 1);
        let text = label.items();
        if text.len() > LONGEST_LABEL || !text.is_empty() && others.contains(label) {
            return false;
        }
    }
    true
}
