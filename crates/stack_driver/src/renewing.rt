// A view with the bounds that its array has now.
ghost use Rattle.std.specs.Prelude.{◌≡◌, ◌≢◌, ◌+◌, ℕ, length, OnOk, IfOk, IfErr, Ok, Err, if◌then◌else◌};
ghost use Rattle.std.specs.List.{list_any};
ghost use Rattle.transform_composition.specs.Members.{effective_bounds};
ghost use Rattle.stack_driver.specs.Conditions.{IsView};
ghost use Rattle.stack_driver.specs.Renewed.{IsNewShape, MayRenew, reshaped, goes_from, opened_dims, opened, leaf_of, leaf_renewed, renewed};
ghost use Rattle.stack_driver.specs.Arrays.{array_domain};
ghost use Rattle.stack_driver.specs.Views.{look_of};
ghost use Rattle.stack_driver.specs.declared.error.RenewError.{RenewError};
ghost use Rattle.stack_driver.specs.declared.view.View.TheVariants as view;
ghost use Rattle.transform_composition.specs.Tightening.{tighten_answer};
ghost use Rattle.transform_composition.specs.declared.error.ComposeError.{ComposeError};

use crate::error::RenewError;
use crate::reference::ArrayRef;
use crate::view::View;
use crate::wholes::array_domain;
use cast_driver::Sizes;
use std::alloc::{AllocError, Global};
use transform_composition::{ComposeError, Interval, OutMap, Transform, look_at_all, tighten};

/// The view with the bounds that its array has under a shape: implicit bounds of dimensions from which a strided map goes are
/// taken anew from the array's domain.
///
/// The shape is in cells; it has the array's rank, and is the array's own where the run holds it.
///
/// # Errors
///
/// The view is gone after each.
/// - `NotArray` where the view is, through casts, no leaf.
/// - `Refused` with the cause for which `tighten` refuses the array's domain.
/// - `Memory`, which may come before another is seen.
///
/// TensorStore, "Index space", "Implicit bounds"; `resolve`.
pub fn renew(alloc: Global, v: View, shape: &[u64]) -> Result<View, RenewError>
    requires { MayRenew v shape.now }
    ensures ok { IfOk result (λ w. renewed shape.now v ≡ Ok w) }
    ensures err { IfErr result (λ e. e ≢ RenewError.Memory → renewed shape.now v ≡ Err e) }
    ensures view { IfOk result (λ w. IsView v → IsView w) }
    ensures dtype { IfOk result (λ w. (look_of w).dtype ≡ (look_of v).dtype) }
{
    let mut v = v;
    renew_in(alloc, &mut v, shape)?;
    Ok(v)
}

fn renew_in(alloc: Global, v: &mut View, shape: &[u64]) -> Result<(), RenewError>
    requires { MayRenew v.old shape.now }
    ensures ok { OnOk result (renewed shape.now v.old ≡ Ok v.new) }
    ensures err { IfErr result (λ e. e ≢ RenewError.Memory → renewed shape.now v.old ≡ Err e) }
{
    match v {
        View::Leaf { array, transform } => renew_leaf(alloc, array, transform, shape),
        View::Cast { base, .. } => renew_in(alloc, base.get_mut(), shape),
        View::Stack { .. } => Err(RenewError::NotArray),
    }
}

// An array of another shape, under its transform with bounds taken anew.
fn renew_leaf(
    alloc: Global,
    array: &mut ArrayRef,
    transform: &mut Transform,
    shape: &[u64],
) -> Result<(), RenewError>
    requires { IsNewShape array.old shape.now }
    ensures ok { OnOk result (leaf_renewed shape.now array.old transform.old ≡ Ok (view.Leaf array.new transform.new)) }
    ensures err { IfErr result (λ e. e ≢ RenewError.Memory → leaf_renewed shape.now array.old transform.old ≡ Err e) }
{
    reshape(alloc, array, shape)?;
    open(alloc, transform)?;
    tighten_over(alloc, transform, array)
}

// Gives a reference another shape.
fn reshape(alloc: Global, array: &mut ArrayRef, shape: &[u64]) -> Result<(), AllocError>
    requires { IsNewShape array.old shape.now }
    ensures { OnOk result (array.new ≡ reshaped shape.now array.old) }
{
    let sizes = shape.to_vec(alloc)?;
    array.shape = Sizes::wrap(sizes);
    Ok(())
}

// Tightens a transform by an array's domain.
fn tighten_over(
    alloc: Global,
    transform: &mut Transform,
    array: &ArrayRef,
) -> Result<(), RenewError>
    ensures ok { OnOk result (leaf_of array.now (tighten_answer transform.old (array_domain array.now))
        ≡ Ok (view.Leaf array.now transform.new)) }
    ensures err { IfErr result (λ e. e ≢ RenewError.Memory
        → leaf_of array.now (tighten_answer transform.old (array_domain array.now)) ≡ Err e) }
{
    let domain = array_domain(alloc, array)?;
    match tighten(alloc, transform, &domain) {
        Ok(()) => Ok(()),
        Err(ComposeError::Memory) => Err(RenewError::Memory),
        Err(cause) => Err(RenewError::Refused { cause }),
    }
}

// Makes each implicit bound infinite of a dimension from which a strided map goes.
fn open(alloc: Global, transform: &mut Transform) -> Result<(), AllocError>
    ensures { OnOk result (transform.new ≡ opened transform.old) }
{
    let dims = opened_dims(alloc, transform.domain().dims.items(), transform.maps())?;
    look_at_all(&dims);
    transform.set_dims(dims);
    Ok(())
}

fn opened_dims(
    alloc: Global,
    dims: &[Interval],
    maps: &[OutMap],
) -> Result<Vec<Interval>, AllocError>
    ensures { IfOk result (λ all. all.items ≡ opened_dims 0 dims.now maps.now) }
{
    let mut all = Vec::with_capacity(alloc, dims.len())?;
    for (k, dim) in dims.iter().enumerate() {
        all.push(opened_dim(k, dim, maps))?;
    }
    Ok(all)
}

fn opened_dim(k: usize, dim: &Interval, maps: &[OutMap]) -> Interval
    ensures { result ≡ (if list_any (goes_from k) maps.now then effective_bounds dim.now else dim.now) }
{
    if is_used(k, maps) {
        dim.effective()
    } else {
        *dim
    }
}

// Whether some strided map goes from a dimension.
fn is_used(k: usize, maps: &[OutMap]) -> bool
    ensures { result ≡ list_any (goes_from k) maps.now }
{
    maps.iter().any(|map| goes_from(k, map))
}

// Whether a strided map goes from a dimension.
fn goes_from(k: usize, map: &OutMap) -> bool
    ensures { result ≡ goes_from k map.now }
{
    match map {
        OutMap::Strided { dim, .. } => *dim as usize == k,
        _ => false,
    }
}
