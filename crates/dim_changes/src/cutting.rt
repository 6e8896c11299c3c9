// Steps that cut each selected dimension by itself.
ghost use Rattle.std.specs.List.{All, range_with_len};
ghost use Rattle.std.specs.Prelude.{◌<◌, ◌≡◌, ◌≤◌, IfOk, length, map, ℕ};
ghost use Rattle.dim_changes.specs.Causes.{Gives, first_cause, over};
ghost use Rattle.dim_changes.specs.Cuts.{cut_counts, cut_for, per_dim_counts};
ghost use Rattle.dim_changes.specs.CutViews.{cut_answer, cut_at, cut_causes, cut_map, cut_view};
ghost use Rattle.dim_changes.specs.Emptied.{IsComposed, emptied_dim, emptied_view, refilled_dim, refilled_dims};
ghost use Rattle.step_forms.specs.Given.{HasIndicesAt, number_for};

use crate::cause::{Cause, Fault, with_cause};
use crate::cut::{Cut, kept};
use crate::dims::{dim_at, spot_in};
use crate::emptied::{emptied, refilled};
use crate::slice::{part_for, sliced_by, slices_count};
use crate::stepping::agreeing;
use crate::stride::strided_by;
use crate::translate::{moved_back, moved_by, moved_to};
use cells::List;
use index_intervals::Interval;
use std::alloc::{AllocError, Global};
use step_forms::{Act, PerDim};
use transform_composition::{Domain, OutMap, Transform, copied_names, look_at_all};

// The number for the selected dimension at a spot.
fn number_for(by: &PerDim, spot: usize) -> Option<i64>
    ensures { result ≡ number_for by.now spot }
{
    match by {
        PerDim::All { number } => Some(*number),
        PerDim::Each { numbers } => match numbers.items().get(spot) {
            Some(number) => *number,
            None => None,
        },
    }
}

// What a step does to the dimension at a spot of the selection.
fn cut_for(act: &Act, spot: usize, dim: &Interval) -> Result<Cut, Cause>
    requires { HasIndicesAt act.now spot }
    ensures { result ≡ cut_for act.now spot dim.now }
{
    match act {
        Act::TranslateTo { by } => match number_for(by, spot) {
            Some(origin) => moved_to(dim, origin),
            None => Ok(kept(dim)),
        },
        Act::TranslateBy { by } => match number_for(by, spot) {
            Some(number) => moved_by(dim, number),
            None => Ok(kept(dim)),
        },
        Act::TranslateBackwardBy { by } => match number_for(by, spot) {
            Some(number) => moved_back(dim, number),
            None => Ok(kept(dim)),
        },
        Act::Stride { by } => match number_for(by, spot) {
            Some(s) => strided_by(dim, s),
            None => Ok(kept(dim)),
        },
        Act::Slice { by } => sliced_by(dim, part_for(by, spot)),
        _ => Ok(kept(dim)),
    }
}

// Whether a list has one number per selected dimension.
fn per_dim_counts(by: &PerDim, count: usize) -> bool
    ensures { result ≡ per_dim_counts by.now count }
{
    match by {
        PerDim::All { .. } => true,
        PerDim::Each { numbers } => numbers.items().len() == count,
    }
}

fn cut_counts(act: &Act, count: usize) -> bool
    ensures { result ≡ cut_counts act.now count }
{
    match act {
        Act::TranslateTo { by } => per_dim_counts(by, count),
        Act::TranslateBy { by } => per_dim_counts(by, count),
        Act::TranslateBackwardBy { by } => per_dim_counts(by, count),
        Act::Stride { by } => per_dim_counts(by, count),
        Act::Slice { by } => slices_count(by, count),
        _ => true,
    }
}

// The cause that counts, of those of all selected dimensions.
fn cut_causes(act: &Act, dims: &[Interval], selected: &[usize]) -> Option<Cause>
    requires known { All (λ dim. dim < length dims.now) selected.now }
    requires indices { (spot : ℕ) → HasIndicesAt act.now spot }
    ensures { result ≡ first_cause (cut_causes act.now dims.now selected.now) }
{
    let mut cause = None;
    let mut k = selected.len();
    while k > 0 {
        k -= 1;
        cause = with_cause(cut_for(act, k, &dims[selected[k]]).err(), cause);
    }
    cause
}

// The cut of a dimension; one that isn't selected stays as it is.
fn cut_at(act: &Act, dims: &[Interval], selected: &[usize], dim: usize) -> Cut
    requires known { dim < length dims.now }
    requires indices { (spot : ℕ) → HasIndicesAt act.now spot }
    ensures { result ≡ cut_at act.now dims.now selected.now dim }
{
    let old = dim_at(dims, dim);
    match spot_in(selected, dim) {
        Some(spot) => match cut_for(act, spot, old) {
            Ok(cut) => cut,
            Err(_) => kept(old),
        },
        None => kept(old),
    }
}

fn emptied_dim(act: &Act, dims: &[Interval], selected: &[usize], dim: usize) -> Interval
    requires known { dim < length dims.now }
    requires indices { (spot : ℕ) → HasIndicesAt act.now spot }
    ensures { result ≡ emptied_dim act.now dims.now selected.now dim }
{
    emptied(dim_at(dims, dim), cut_at(act, dims, selected, dim).dim)
}

// The dimensions over which maps are composed.
#[tactic(auto, using(crate::proofs::Lists::listed_more))]
fn emptied_dims(
    alloc: Global,
    act: &Act,
    dims: &[Interval],
    selected: &[usize],
) -> Result<Vec<Interval>, AllocError>
    requires { (spot : ℕ) → HasIndicesAt act.now spot }
    ensures { IfOk result (λ v. v.items ≡ map (emptied_dim act.now dims.now selected.now)
        (range_with_len 0 (length dims.now))) }
{
    let mut news = Vec::with_capacity(alloc, dims.len())?;
    for dim in 0..dims.len() {
        news.push(emptied_dim(act, dims, selected, dim))?;
    }
    Ok(news)
}

fn refilled_dim(
    act: &Act,
    dims: &[Interval],
    selected: &[usize],
    composed: &[Interval],
    dim: usize,
) -> Interval
    requires known { dim < length dims.now }
    requires same { length composed.now ≡ length dims.now }
    requires indices { (spot : ℕ) → HasIndicesAt act.now spot }
    ensures { result ≡ refilled_dim act.now dims.now selected.now composed.now dim }
{
    let cut = cut_at(act, dims, selected, dim);
    refilled(dim_at(dims, dim), cut.dim, dim_at(composed, dim))
}

// The dimensions of the result.
#[tactic(auto, using(crate::proofs::Lists::listed_more))]
fn refilled_dims(
    alloc: Global,
    act: &Act,
    dims: &[Interval],
    selected: &[usize],
    composed: &[Interval],
) -> Result<Vec<Interval>, AllocError>
    requires same { length composed.now ≡ length dims.now }
    requires indices { (spot : ℕ) → HasIndicesAt act.now spot }
    ensures value { IfOk result (λ v. v.items ≡ refilled_dims act.now dims.now selected.now composed.now) }
{
    let mut news = Vec::with_capacity(alloc, dims.len())?;
    for dim in 0..dims.len() {
        news.push(refilled_dim(act, dims, selected, composed, dim))?;
    }
    Ok(news)
}

fn cut_map(act: &Act, dims: &[Interval], selected: &[usize], dim: usize) -> OutMap
    requires few { length dims.now ≤ 32 }
    requires known { dim < length dims.now }
    requires indices { (spot : ℕ) → HasIndicesAt act.now spot }
    ensures { result ≡ cut_map act.now dims.now selected.now dim }
{
    let cut = cut_at(act, dims, selected, dim);
    OutMap::Strided {
        offset: cut.offset,
        stride: cut.stride,
        dim: dim as u32,
    }
}

#[tactic(auto, using(crate::proofs::Lists::listed_more))]
fn cut_maps(
    alloc: Global,
    act: &Act,
    dims: &[Interval],
    selected: &[usize],
) -> Result<Vec<OutMap>, AllocError>
    requires few { length dims.now ≤ 32 }
    requires indices { (spot : ℕ) → HasIndicesAt act.now spot }
    ensures { IfOk result (λ v. v.items ≡ map (cut_map act.now dims.now selected.now)
        (range_with_len 0 (length dims.now))) }
{
    let mut maps = Vec::with_capacity(alloc, dims.len())?;
    for dim in 0..dims.len() {
        maps.push(cut_map(act, dims, selected, dim))?;
    }
    Ok(maps)
}

// The domain over which maps are composed, labels kept.
fn emptied_domain(
    alloc: Global,
    u: &Transform,
    selected: &[usize],
    act: &Act,
) -> Result<Domain, AllocError>
    requires { (spot : ℕ) → HasIndicesAt act.now spot }
    ensures { IfOk result (λ domain. domain ≡ (emptied_view u.now selected.now act.now).domain) }
{
    let dims = emptied_dims(alloc, act, u.domain().dims.items(), selected)?;
    let labels = copied_names(alloc, u.domain().labels.items())?;
    Ok(Domain {
        dims: List::wrap(dims),
        labels: List::wrap(labels),
    })
}

// What composing gave, with the dimensions of the result.
fn with_refilled(
    alloc: Global,
    u: &Transform,
    selected: &[usize],
    act: &Act,
    mut t: Transform,
) -> Result<Transform, Fault>
    requires indices { (spot : ℕ) → HasIndicesAt act.now spot }
    requires composed { IsComposed u.now selected.now act.now t }
    ensures { Gives u.now (cut_view u.now selected.now act.now)
        (over u.now (cut_view u.now selected.now act.now)) result }
{
    let olds = u.domain().dims.items();
    let dims = refilled_dims(alloc, act, olds, selected, t.domain().dims.items())?;
    look_at_all(&dims);
    t.set_dims(dims);
    Ok(t)
}

// The cuts of all dimensions, for a step that no cause is against.
fn cut_over(alloc: Global, u: &Transform, selected: &[usize], act: &Act) -> Result<Transform, Fault>
    requires { (spot : ℕ) → HasIndicesAt act.now spot }
    ensures { Gives u.now (cut_view u.now selected.now act.now)
        (over u.now (cut_view u.now selected.now act.now)) result }
{
    let domain = emptied_domain(alloc, u, selected, act)?;
    let maps = cut_maps(alloc, act, u.domain().dims.items(), selected)?;
    match agreeing(alloc, u, domain, maps) {
        Ok(t) => with_refilled(alloc, u, selected, act, t),
        Err(e) => Err(e),
    }
}

/// The transform over dimensions of which a step has moved, strided or sliced each selected one by itself.
///
/// # Errors
///
/// The first that holds:
/// - `Count` where a list has another length than the selection.
/// - The cause of a selected dimension that is tried first; within it that of the first selected dimension.
/// - `Overflow` where an offset or a stride of the result passes 64 bits.
/// - `TooLarge` where an index array of the result has more than 2^22 entries.
/// - `Memory`, which may come before another is seen.
pub fn with_cuts(
    alloc: Global,
    u: &Transform,
    selected: &[usize],
    act: &Act,
) -> Result<Transform, Fault>
    requires known { All (λ dim. dim < length u.now.domain.dims) selected.now }
    requires indices { (spot : ℕ) → HasIndicesAt act.now spot }
    ensures { Gives u.now (cut_view u.now selected.now act.now) (cut_answer u.now selected.now act.now) result }
{
    if !cut_counts(act, selected.len()) {
        return Err(Fault::Refused {
            cause: Cause::Count,
        });
    }
    let dims = u.domain().dims.items();
    if let Some(cause) = cut_causes(act, dims, selected) {
        return Err(Fault::Refused { cause });
    }
    cut_over(alloc, u, selected, act)
}
