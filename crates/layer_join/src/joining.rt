// The joins.
ghost use Rattle.std.specs.Prelude.{◌≡◌, ◌≢◌, ◌<◌, ◌≤◌, length, IfOk, IfErr, Ok, Err, None};
ghost use Rattle.std.specs.List.{AllByRecursion};
ghost use Rattle.index_transform.specs.Identity.{identity_over};
ghost use Rattle.stack_driver.specs.Conditions.{IsView};
ghost use Rattle.index_transform.specs.Transforms.{IsDomain};
ghost use Rattle.stack_driver.specs.Stacks.{first_unlike, stacked_domain, HasLastTargets};
ghost use Rattle.stack_driver.specs.declared.view.View.TheVariants as view;
ghost use Rattle.layer_join.specs.Joins.{join_answer, joined_layers, joined_domain, IsJoined, AreApart};
ghost use Rattle.layer_join.specs.Joins as joins;
ghost use Rattle.layer_join.specs.Refusals.{concat_refusal, stack_refusal};
ghost use Rattle.layer_join.specs.declared.error.JoinError.{JoinError};

use crate::error::JoinError;
use crate::placing::{from_on, placed_layers, with_axis};
use crate::refusing::{concat_refusal, stack_refusal, unlike_refusal};
use crate::sliding::{look_along, moved_layers};
use cells::List;
use index_transform::{Domain, Transform};
use stack_driver::{View, stacked_domain};
use std::alloc::{AllocError, Global};

/// Views laid over one another: a cell belongs to the last of them whose domain has it.
///
/// The domain is the least around theirs; a bound is implicit where a layer that attains it has it implicit, and a label stays
/// where all layers have it.
///
/// # Errors
///
/// The first that holds; the layers are gone after each.
/// - `Depth` where casts and stacks would be nested more than 16 deep.
/// - `Layers` with the first layer whose dtype or rank differs from the first one's.
/// - `Memory`, which may come before another is seen.
///
/// TensorStore, `tensorstore.overlay`.
pub fn overlay(alloc: Global, layers: Vec<View>) -> Result<View, JoinError>
    requires some { 0 < length layers.items }
    requires few { length layers.items ≤ 256 }
    requires views { AllByRecursion IsView layers.items }
    ensures ok { IfOk result (λ v. join_answer joins.overlay layers.items ≡ Ok v) }
    ensures err { IfErr result (λ e. e ≢ JoinError.Memory → join_answer joins.overlay layers.items ≡ Err e) }
    ensures joined { IfOk result (IsJoined joins.overlay layers.items) }
    ensures view { IfOk result IsView }
{
    match unlike_refusal(&layers) {
        Some(e) => Err(e),
        None => stacked(alloc, layers),
    }
}

/// Views put behind one another along an axis: the first stays, and each further one is moved along the axis so that it begins
/// right behind the one before it.
///
/// The domain is the least around those of the moved views, with flags and labels as in `overlay`. A cell that none of them
/// has is in the domain where they differ along another dimension; it has no target.
///
/// # Errors
///
/// The first that holds; the layers are gone after each.
/// - `Depth`, `Layers` as `overlay`.
/// - `Axis` where the axis isn't below the rank.
/// - `Unbounded` with the first layer whose interval on the axis is infinite.
/// - `Overflow` with the first layer whose moved interval has a bound that is no finite index, or whose moved transform an
///   offset that passes 64 bits.
/// - `Memory`, which may come before another is seen.
///
/// TensorStore, `tensorstore.concat`.
pub fn concat(alloc: Global, layers: Vec<View>, axis: u32) -> Result<View, JoinError>
    requires some { 0 < length layers.items }
    requires few { length layers.items ≤ 256 }
    requires views { AllByRecursion IsView layers.items }
    ensures ok { IfOk result (λ v. join_answer (joins.concat axis) layers.items ≡ Ok v) }
    ensures err { IfErr result (λ e. e ≢ JoinError.Memory → join_answer (joins.concat axis) layers.items ≡ Err e) }
    ensures joined { IfOk result (IsJoined (joins.concat axis) layers.items) }
    ensures apart { IfOk result (λ v. AreApart axis layers.items) }
    ensures view { IfOk result IsView }
{
    match concat_refusal(&layers, axis) {
        Some(e) => Err(e),
        None => concatenated(alloc, layers, axis as usize),
    }
}

/// Views put beside one another along a new dimension: the axis numbers the layers.
///
/// The new dimension has explicit bounds and no label. The others are those of `overlay`.
///
/// # Errors
///
/// The first that holds; the layers are gone after each.
/// - `Depth`, `Layers` as `overlay`.
/// - `Axis` where the axis is above the rank.
/// - `Rank` where there would be more than 32 dimensions.
/// - `Memory`, which may come before another is seen.
///
/// TensorStore, `tensorstore.stack`.
pub fn stack(alloc: Global, layers: Vec<View>, axis: u32) -> Result<View, JoinError>
    requires some { 0 < length layers.items }
    requires few { length layers.items ≤ 256 }
    requires views { AllByRecursion IsView layers.items }
    ensures ok { IfOk result (λ v. join_answer (joins.stack axis) layers.items ≡ Ok v) }
    ensures err { IfErr result (λ e. e ≢ JoinError.Memory → join_answer (joins.stack axis) layers.items ≡ Err e) }
    ensures joined { IfOk result (IsJoined (joins.stack axis) layers.items) }
    ensures view { IfOk result IsView }
{
    match stack_refusal(&layers, axis) {
        Some(e) => Err(e),
        None => Ok(beside(alloc, layers, axis as usize)?),
    }
}

// The stack of views that are alike.
fn stacked(alloc: Global, layers: Vec<View>) -> Result<View, JoinError>
    requires some { 0 < length layers.items }
    requires few { length layers.items ≤ 256 }
    requires views { AllByRecursion IsView layers.items }
    requires alike { first_unlike layers.items ≡ None }
    ensures value { IfOk result (λ v. v ≡ view.Stack layers.items (identity_over (stacked_domain layers.items))) }
    ensures err { IfErr result (λ e. e ≡ JoinError.Memory) }
    ensures targets { IfOk result (λ v. HasLastTargets v layers.items) }
    ensures view { IfOk result IsView }
{
    match View::stack(alloc, layers) {
        Ok(v) => Ok(v),
        Err(_) => Err(JoinError::Memory),
    }
}

// Views that are alike, put behind one another.
fn concatenated(alloc: Global, layers: Vec<View>, axis: usize) -> Result<View, JoinError>
    requires some { 0 < length layers.items }
    requires few { length layers.items ≤ 256 }
    requires views { AllByRecursion IsView layers.items }
    requires able { concat_refusal axis layers.items ≡ None }
    ensures value { IfOk result (λ v. join_answer (joins.concat axis) layers.items ≡ Ok v) }
    ensures err { IfErr result (λ e. e ≡ JoinError.Memory) }
    ensures joined { IfOk result (IsJoined (joins.concat axis) layers.items) }
    ensures apart { IfOk result (λ v. AreApart axis layers.items) }
    ensures view { IfOk result IsView }
{
    look_along(&layers, axis);
    let layers = moved_layers(alloc, layers, axis)?;
    stacked(alloc, layers)
}

// Views that are alike, put beside one another.
fn beside(alloc: Global, layers: Vec<View>, axis: usize) -> Result<View, AllocError>
    requires some { 0 < length layers.items }
    requires few { length layers.items ≤ 256 }
    requires views { AllByRecursion IsView layers.items }
    requires able { stack_refusal axis layers.items ≡ None }
    ensures value { IfOk result (λ v. join_answer (joins.stack axis) layers.items ≡ Ok v) }
    ensures joined { IfOk result (IsJoined (joins.stack axis) layers.items) }
    ensures view { IfOk result IsView }
{
    let domain = beside_domain(alloc, &layers, axis)?;
    let transform = Transform::identity(alloc, domain)?;
    placed_over(alloc, layers, axis, transform)
}

// The domain of views beside one another.
fn beside_domain(alloc: Global, layers: &[View], axis: usize) -> Result<Domain, AllocError>
    requires some { 0 < length layers.now }
    requires few { length layers.now ≤ 256 }
    requires able { stack_refusal axis layers.now ≡ None }
    ensures value { IfOk result (λ d. d ≡ joined_domain (joins.stack axis) layers.now) }
    ensures rules { IfOk result IsDomain }
{
    let domain = stacked_domain(alloc, layers)?;
    with_axis(alloc, &domain, axis, from_on(0, layers.len()))
}

// Views under a transform, each at its place of a new dimension.
fn placed_over(
    alloc: Global,
    layers: Vec<View>,
    axis: usize,
    transform: Transform,
) -> Result<View, AllocError>
    requires some { 0 < length layers.items }
    requires few { length layers.items ≤ 256 }
    requires able { stack_refusal axis layers.items ≡ None }
    ensures { IfOk result (λ v. v ≡ view.Stack (joined_layers (joins.stack axis) layers.items) transform) }
{
    let layers = placed_layers(alloc, layers, axis)?;
    Ok(View::Stack {
        layers: List::wrap(layers),
        transform,
    })
}
