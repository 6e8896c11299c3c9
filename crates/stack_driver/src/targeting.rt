// Where a cell of a view lies.
ghost use Rattle.std.specs.Prelude.{◌≡◌, ◌≢◌, ◌≤ℤ◌, ◌++◌, ◌∷◌, [], pos, false, None, Some, List, map, length, unsigned_abs, IsTrue, IfOk, IfErr, IfSome, IfNone, Ok, Err};
ghost use Rattle.std.specs.List.{All, list_all, zip};
ghost use Rattle.cast_driver.specs.Shapes.{IsShape};
ghost use Rattle.transform_composition.specs.Bounds.{Bounds};
ghost use Rattle.transform_composition.specs.Values.{value_at};
ghost use Rattle.stack_driver.specs.Targets.{LeadTo, in_shape, IsOutside, is_member, has_index};
ghost use Rattle.stack_driver.specs.Views.{look_of, target_of, leaf_target};
ghost use Rattle.stack_driver.specs.Conditions.{IsView, IsLast};

use crate::error::TargetError;
use crate::look::{dtype, transform_of};
use crate::place::Target;
use crate::reference::ArrayRef;
use crate::view::View;
use cast_driver::{Cast, Chain, Dtype, Index};
use std::alloc::{AllocError, Global};
use transform_composition::{AtError, Interval, Transform, is_index};

/// Where the cell of a view at an index vector lies.
///
/// # Errors
///
/// - `OutOfRange` with the first dimension along which the array's index vector lies outside its shape.
/// - `Uncovered` where a stack has no layer with the cell.
/// - `Memory`, which may come before another is seen.
pub fn target(alloc: Global, v: &View, index: &[i64]) -> Result<Target, TargetError>
    requires view { IsView v.now }
    requires inside { IsTrue (has_index (look_of v.now).dims index.now) }
    ensures ok { IfOk result (λ t. target_of v.now index.now ≡ Ok t) }
    ensures err { IfErr result (λ e. e ≢ TargetError.Memory → target_of v.now index.now ≡ Err e) }
    ensures casts { IfOk result (λ t. LeadTo t.casts (look_of v.now).dtype) }
{
    match v {
        View::Leaf { array, transform } => leaf_target(alloc, array, transform, index),
        View::Cast { to, base } => {
            let base = base.get();
            cast_target(target(alloc, base, index)?, dtype(base), *to)
        }
        View::Stack { layers, transform } => {
            let layers = layers.items();
            match covering(alloc, layers, transform, index) {
                Ok((place, inner)) => target(alloc, &layers[place], &inner),
                Err(e) => Err(e),
            }
        }
    }
}

// The last of a stack's layers that has the transform's value, and this value.
fn covering(
    alloc: Global,
    layers: &[View],
    transform: &Transform,
    index: &[i64],
) -> Result<(usize, Vec<i64>), TargetError>
    requires inside { IsTrue (has_index transform.now.domain.dims index.now) }
    ensures ok { IfOk result (λ p. (p.1.items ≡ value_at transform.now index.now)
        × IsLast layers.now p.1.items (Some p.0)) }
    ensures err { IfErr result (λ e. e ≢ TargetError.Memory → (e ≡ TargetError.Uncovered)
        × IsLast layers.now (value_at transform.now index.now) None) }
{
    let Some(inner) = finite_values(alloc, transform, index)? else {
        return Err(TargetError::Uncovered);
    };
    match last_with(layers, &inner) {
        Some(place) => Ok((place, inner)),
        None => Err(TargetError::Uncovered),
    }
}

// The numbers of a transform at an index vector of its domain; `None` where one is no finite index, so that no domain has them.
fn finite_values(
    alloc: Global,
    transform: &Transform,
    index: &[i64],
) -> Result<Option<Vec<i64>>, AllocError>
    requires inside { IsTrue (has_index transform.now.domain.dims index.now) }
    ensures some { IfOk result (λ o. IfSome o (λ numbers. numbers.items ≡ value_at transform.now index.now)) }
    ensures none { IfOk result (λ o. IfNone o ((dims : List Bounds)
        → has_index dims (value_at transform.now index.now) ≡ false)) }
{
    match transform.at(alloc, index) {
        Ok(numbers) => Ok(Some(numbers)),
        Err(AtError::Memory) => Err(AllocError),
        Err(AtError::Overflow { .. }) => Ok(None),
        Err(AtError::OutOfRange { .. }) => Ok(None),
    }
}

// The last of some views whose domain has an index vector.
fn last_with(layers: &[View], index: &[i64]) -> Option<usize>
    ensures { IsLast layers.now index.now result }
{
    let mut last = None;
    for place in 0..layers.len() {
        let domain = transform_of(&layers[place]).domain();
        if has_index(domain.dims.items(), index) {
            last = Some(place);
        }
    }
    last
}

/// Whether a view's domain has an index vector, its bounds as they stand.
pub fn contains(v: &View, index: &[i64]) -> bool
    ensures { result ≡ has_index (look_of v.now).dims index.now }
{
    has_index(transform_of(v).domain().dims.items(), index)
}

// Whether a domain has an index vector, its bounds as they stand.
fn has_index(dims: &[Interval], index: &[i64]) -> bool
    ensures { result ≡ has_index dims.now index.now }
{
    if dims.len() != index.len() {
        return false;
    }
    are_members(dims, index)
}

fn are_members(dims: &[Interval], index: &[i64]) -> bool
    ensures { result ≡ list_all (λ p. is_member p.0 p.1) (zip dims.now index.now) }
{
    dims.iter()
        .zip(index.iter())
        .all(|(dim, x)| is_member(dim, *x))
}

// Whether a number is a finite index of an interval, its bounds as they stand.
fn is_member(dim: &Interval, x: i64) -> bool
    ensures { result ≡ is_member dim.now x }
{
    is_index(x.into()) && (dim.lo <= x && x <= dim.hi)
}

// The target of a leaf.
fn leaf_target(
    alloc: Global,
    array: &ArrayRef,
    transform: &Transform,
    index: &[i64],
) -> Result<Target, TargetError>
    requires node { length transform.now.maps ≡ length array.now.shape }
    requires inside { IsTrue (has_index transform.now.domain.dims index.now) }
    ensures ok { IfOk result (λ t. leaf_target array.now
        (in_shape 0 (value_at transform.now index.now) array.now.shape) ≡ Ok t) }
    ensures err { IfErr result (λ e. e ≢ TargetError.Memory
        → leaf_target array.now (in_shape 0 (value_at transform.now index.now) array.now.shape) ≡ Err e) }
    ensures casts { IfOk result (λ t. LeadTo t.casts array.now.dtype) }
{
    let inner = index_in(alloc, transform, index, array.shape.items())?;
    Ok(Target {
        array: array.number,
        index: Index::wrap(inner),
        chain: Chain::new(alloc),
    })
}

// The numbers of a transform at an index vector of its domain, where they lie inside a shape.
fn index_in(
    alloc: Global,
    transform: &Transform,
    index: &[i64],
    shape: &[u64],
) -> Result<Vec<i64>, TargetError>
    requires ranks { length transform.now.maps ≡ length shape.now }
    requires inside { IsTrue (has_index transform.now.domain.dims index.now) }
    requires sizes { IsShape shape.now }
    ensures ok { IfOk result (λ numbers. in_shape 0 (value_at transform.now index.now) shape.now
        ≡ Ok (map unsigned_abs numbers.items)) }
    ensures from_zero { IfOk result (λ numbers. All (λ x. pos 0 ≤ℤ x) numbers.items) }
    ensures err { IfErr result (λ e. e ≢ TargetError.Memory
        → IsOutside (in_shape 0 (value_at transform.now index.now) shape.now) e) }
{
    let mut numbers = Vec::with_capacity(alloc, shape.len())?;
    for (dim, size) in shape.iter().enumerate() {
        let number = transform.number(dim, index);
        if number < 0 || i128::from(*size) <= number {
            return Err(TargetError::OutOfRange { dim: dim as u32 });
        }
        if numbers.push(number as i64).is_err() {
            return Err(TargetError::Memory);
        }
    }
    Ok(numbers)
}

// A target with one cast more.
fn cast_target(target: Target, from: Dtype, to: Dtype) -> Result<Target, TargetError>
    requires { LeadTo target.casts from }
    ensures ok { IfOk result (λ t. t ≡ record target { casts = target.casts ++ record { from = from; to = to } ∷ [] }) }
    ensures err { IfErr result (λ e. e ≡ TargetError.Memory) }
    ensures casts { IfOk result (λ t. LeadTo t.casts to) }
{
    let Target {
        array,
        index,
        mut chain,
    } = target;
    chain.push(Cast { from, to })?;
    Ok(Target {
        array,
        index,
        chain,
    })
}
