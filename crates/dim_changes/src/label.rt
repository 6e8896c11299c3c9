// Labels of dimensions.
ghost use Rattle.std.specs.List.{list_all, range_with_len};
ghost use Rattle.std.specs.Prelude.{◌<◌, ◌≡◌, IfErr, IfOk, IsTrue, Ok, length, map};
ghost use Rattle.transform_composition.specs.Maps.{has_ranks, is_map, is_plain};
ghost use Rattle.dim_changes.specs.Causes.{IsFaultOf};
ghost use Rattle.dim_changes.specs.Marks.{label_answer, new_label, only_labels};

use crate::cause::{Cause, Fault};
use crate::dims::{copied_label, label_at, spot_in};
use cells::{List, Name};
use std::alloc::{AllocError, Global};
use transform_composition::{Domain, OutMap, Transform, copied_maps};

// The new label of a dimension that is selected, or the old one.
fn new_label<'a>(olds: &'a [Name], selected: &[usize], labels: &'a [Name], dim: usize) -> &'a Name
    requires within { dim < length olds.now }
    requires same { length labels.now ≡ length selected.now }
    ensures { result.now ≡ new_label olds.now selected.now labels.now dim }
{
    match spot_in(selected, dim) {
        Some(spot) => label_at(labels, spot),
        None => label_at(olds, dim),
    }
}

#[tactic(auto, using(crate::proofs::Lists::listed_more))]
fn new_labels(
    alloc: Global,
    olds: &[Name],
    selected: &[usize],
    labels: &[Name],
) -> Result<Vec<Name>, AllocError>
    requires same { length labels.now ≡ length selected.now }
    ensures { IfOk result (λ v. v.items ≡ map (new_label olds.now selected.now labels.now)
        (range_with_len 0 (length olds.now))) }
{
    let mut news = Vec::with_capacity(alloc, olds.len())?;
    for dim in 0..olds.len() {
        news.push(copied_label(alloc, new_label(olds, selected, labels, dim))?)?;
    }
    Ok(news)
}

// The transform, unless its labels are too long or repeat.
fn relabelled(domain: Domain, maps: Vec<OutMap>) -> Result<Transform, Fault>
    requires ranks { IsTrue (has_ranks domain maps.items) }
    requires fit { IsTrue (list_all (is_map domain.dims) maps.items) }
    requires plain { IsTrue (list_all is_plain maps.items) }
    ensures ok { IfOk result (λ t. only_labels (record { domain = domain; maps = maps.items }) ≡ Ok t) }
    ensures err { IfErr result (λ f. IsFaultOf (only_labels (record { domain = domain; maps = maps.items })) f) }
{
    match Transform::new(domain, maps) {
        Ok(t) => Ok(t),
        // Ranks and maps are those of a transform.
        Err(_) => Err(Fault::Refused {
            cause: Cause::Label,
        }),
    }
}

// The domain with new labels for the selected dimensions.
fn labelled_domain(
    alloc: Global,
    old: &Domain,
    selected: &[usize],
    labels: &[Name],
) -> Result<Domain, AllocError>
    requires { length labels.now ≡ length selected.now }
    ensures { IfOk result (λ domain. domain ≡ record {
      dims = old.now.dims;
      labels = map
          (new_label old.now.labels selected.now labels.now) (range_with_len 0 (length old.now.labels));
    }) }
{
    let dims = Vec::from_slice(alloc, old.dims.items())?;
    let news = new_labels(alloc, old.labels.items(), selected, labels)?;
    Ok(Domain {
        dims: List::wrap(dims),
        labels: List::wrap(news),
    })
}

/// The transform with new labels for the selected dimensions.
///
/// # Errors
///
/// The first that holds:
/// - `Count` where labels and selected dimensions differ in number.
/// - `Label` where a label has more than 64 bytes, or one that isn't empty would come twice.
/// - `Memory`, which may come before another is seen.
pub fn labelled(
    alloc: Global,
    t: &Transform,
    selected: &[usize],
    labels: &[Name],
) -> Result<Transform, Fault>
    ensures ok { IfOk result (λ u. label_answer t.now selected.now labels.now ≡ Ok u) }
    ensures err { IfErr result (λ f. IsFaultOf (label_answer t.now selected.now labels.now) f) }
{
    if labels.len() != selected.len() {
        return Err(Fault::Refused {
            cause: Cause::Count,
        });
    }
    let domain = labelled_domain(alloc, t.domain(), selected, labels)?;
    let maps = copied_maps(alloc, t.maps())?;
    relabelled(domain, maps)
}
