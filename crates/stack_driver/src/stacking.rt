// Stacks of views.
ghost use Rattle.std.specs.Prelude.{◌≡◌, ◌≢◌, ◌<◌, ◌≤◌, ◌==◌, ℕ, List, length, map, slice_index_or, not, IsTrue, if◌then◌else◌, [], IfOk, IfErr, IfSome, Ok, Err, Some, None};
ghost use Rattle.std.specs.List.{AllByRecursion, list_all, position_from};
ghost use Rattle.transform_composition.specs.Bounds.{Bounds};
ghost use Rattle.transform_composition.specs.Transforms.{IsDomain};
ghost use Rattle.stack_driver.specs.Conditions.{IsView};
ghost use Rattle.stack_driver.specs.Stacks.{column, stacked_dims, has_label, stacked_labels, stacked_domain, is_like, first_unlike, stack_answer, HasLastTargets};
ghost use Rattle.stack_driver.specs.Views.{look_of, own_transform};
ghost use Rattle.stack_driver.specs.declared.error.StackError.{StackError};

use crate::error::StackError;
use crate::look::{dtype, transform_of};
use crate::view::View;
use cast_driver::{List, Name};
use std::alloc::{AllocError, Global};
use transform_composition::{Domain, Interval, Transform, around_all};

impl View {
    /// The stack of some views: a cell belongs to the last of them whose domain has it.
    ///
    /// Its domain is the least around theirs; a bound is implicit where a layer that attains it has it implicit, and a label
    /// stays where all layers have it.
    ///
    /// # Errors
    ///
    /// - `Layers` with the first layer whose dtype or rank differs from the first one's.
    /// - `Memory`.
    ///
    /// TensorStore, driver `stack`.
    pub fn stack(alloc: Global, layers: Vec<View>) -> Result<View, StackError>
        requires some { 0 < length layers.items }
        requires few { length layers.items ≤ 256 }
        requires views { AllByRecursion IsView layers.items }
        ensures ok { IfOk result (λ v. stack_answer layers.items ≡ Ok v) }
        ensures err { IfErr result (λ e. e ≢ StackError.Memory → stack_answer layers.items ≡ Err e) }
        ensures targets { IfOk result (λ v. HasLastTargets v layers.items) }
        ensures view { IfOk result IsView }
    {
        if let Some(layer) = first_unlike(&layers) {
            return Err(StackError::Layers {
                layer: layer as u32,
            });
        }
        Ok(stack_over(alloc, layers)?)
    }
}

// The stack of views that are alike.
fn stack_over(alloc: Global, layers: Vec<View>) -> Result<View, AllocError>
    requires some { 0 < length layers.items }
    requires few { length layers.items ≤ 256 }
    requires views { AllByRecursion IsView layers.items }
    requires alike { first_unlike layers.items ≡ None }
    ensures value { IfOk result (λ v. stack_answer layers.items ≡ Ok v) }
    ensures targets { IfOk result (λ v. HasLastTargets v layers.items) }
    ensures view { IfOk result IsView }
{
    let domain = stacked_domain(alloc, &layers)?;
    Ok(View::Stack {
        layers: List::wrap(layers),
        transform: Transform::identity(alloc, domain)?,
    })
}

/// The first view whose dtype or rank differs from the first one's.
pub fn first_unlike(layers: &[View]) -> Option<usize>
    requires some { 0 < length layers.now }
    ensures value { result ≡ first_unlike layers.now }
    ensures within { IfSome result (λ layer. layer < length layers.now) }
{
    unlike(&layers[0], layers)
}

// The first of some views that isn't like another view.
fn unlike(first: &View, layers: &[View]) -> Option<usize>
    ensures value { result ≡ position_from (λ v. not (is_like first.now v)) 0 layers.now }
    ensures within { IfSome result (λ layer. layer < length layers.now) }
{
    layers.iter().position(|view| !is_like(first, view))
}

// Whether a view has the dtype and rank of another.
fn is_like(first: &View, view: &View) -> bool
    ensures { result ≡ is_like first.now view.now }
{
    dtype(view).name() == dtype(first).name() && rank_of(view) == rank_of(first)
}

fn rank_of(view: &View) -> usize
    ensures { result ≡ length (look_of view.now).dims }
{
    transform_of(view).domain().dims.items().len()
}

/// The least domain around those of some views: a bound is implicit where a view that attains it has it implicit, and a label
/// stays where all views have it.
///
/// # Errors
///
/// Want of memory alone.
pub fn stacked_domain(alloc: Global, layers: &[View]) -> Result<Domain, AllocError>
    requires some { 0 < length layers.now }
    ensures value { IfOk result (λ d. d ≡ stacked_domain layers.now) }
    ensures rules { IfOk result IsDomain }
{
    let first = transform_of(&layers[0]).domain();
    let dims = stacked_dims(alloc, first.dims.items(), layers)?;
    Ok(Domain {
        dims: List::wrap(dims),
        labels: List::wrap(stacked_labels(alloc, first.labels.items(), layers)?),
    })
}

fn stacked_dims(
    alloc: Global,
    dims: &[Interval],
    layers: &[View],
) -> Result<Vec<Interval>, AllocError>
    requires some { 0 < length layers.now }
    ensures { IfOk result (λ all. all.items ≡ stacked_dims 0 dims.now layers.now) }
{
    let mut all = Vec::with_capacity(alloc, dims.len())?;
    for (k, dim) in dims.iter().enumerate() {
        all.push(around_all(&column(alloc, k, *dim, layers)?))?;
    }
    Ok(all)
}

// The intervals of some views along a dimension.
fn column(
    alloc: Global,
    k: usize,
    dim: Interval,
    layers: &[View],
) -> Result<Vec<Interval>, AllocError>
    ensures { IfOk result (λ dims. dims.items ≡ column k dim layers.now) }
{
    let mut dims = Vec::with_capacity(alloc, layers.len())?;
    for layer in layers {
        dims.push(dim_of(layer, k, dim))?;
    }
    Ok(dims)
}

fn dim_of(view: &View, k: usize, dim: Interval) -> Interval
    ensures { result ≡ slice_index_or (look_of view.now).dims k dim }
{
    match transform_of(view).domain().dims.items().get(k) {
        Some(own) => *own,
        None => dim,
    }
}

fn stacked_labels(alloc: Global, labels: &[Name], layers: &[View]) -> Result<Vec<Name>, AllocError>
    ensures { IfOk result (λ all. all.items ≡ stacked_labels 0 labels.now layers.now) }
{
    let mut all = Vec::with_capacity(alloc, labels.len())?;
    for (k, label) in labels.iter().enumerate() {
        all.push(kept_label(alloc, k, label, layers)?)?;
    }
    Ok(all)
}

// A label, where all views have it along a dimension.
fn kept_label(alloc: Global, k: usize, label: &Name, layers: &[View]) -> Result<Name, AllocError>
    ensures { IfOk result (λ name. name ≡ (if list_all (has_label k label.now) layers.now then label.now else [])) }
{
    let text = if have_label(k, label, layers) {
        label.items()
    } else {
        ""
    };
    Ok(Name::wrap(String::from_str(alloc, text)?))
}

// Whether all views have this label along a dimension.
fn have_label(k: usize, label: &Name, layers: &[View]) -> bool
    ensures { result ≡ list_all (has_label k label.now) layers.now }
{
    layers.iter().all(|view| has_label(k, label, view))
}

fn has_label(k: usize, label: &Name, view: &View) -> bool
    ensures { result ≡ has_label k label.now view.now }
{
    match transform_of(view).domain().labels.items().get(k) {
        Some(own) => own.items() == label.items(),
        None => label.items().is_empty(),
    }
}
