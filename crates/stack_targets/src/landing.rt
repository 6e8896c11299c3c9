// In which leaf a cell of a view lands, and at which index vector.
ghost use Rattle.std.specs.Prelude.{◌≡◌, ◌≢◌, ◌<◌, ◌≤◌, false, true, None, Some, List, length, IsTrue, IfOk, IfErr, IfSome, OnOk};
ghost use Rattle.cells.specs.Shapes.{IsShape};
ghost use Rattle.index_intervals.specs.Bounds.{Bounds};
ghost use Rattle.index_transform.specs.Values.{value_at};
ghost use Rattle.stack_driver.specs.Conditions.{IsView};
ghost use Rattle.stack_driver.specs.Targets.{IsOutside, has_index, in_shape};
ghost use Rattle.stack_driver.specs.Views.{look_of};
ghost use Rattle.stack_targets.specs.Axes.{IsAxis, LackIndex};
ghost use Rattle.stack_targets.specs.Landings.{IsInside, IsLastLayer, IsPut, first_landing, landing_of, leaves_of};
ghost use Rattle.stack_targets.specs.Numberings.{numbering_of};

use crate::axes::end_of;
use crate::numbering::{Numbering, axis, below, first_leaf};
use cells::LARGEST_RANK;
use index_intervals::is_index;
use index_transform::Transform;
use stack_driver::{ArrayRef, TargetError, View, contains};

/// Puts the index vector at which a cell lands behind the numbers that are there, and gives its leaf's number. The leaves were
/// numbered before.
pub(crate) fn land(
    v: &View,
    numbering: &Numbering,
    index: &[i64],
    numbers: &mut Vec<u64>,
) -> Result<u32, TargetError>
    requires view { IsView v.now }
    requires inside { IsTrue (has_index (look_of v.now).dims index.now) }
    requires few { length (leaves_of v.now) < 4294967295 }
    requires numbered { numbering.now ≡ numbering_of v.now }
    ensures ok { IfOk result (λ leaf. IsPut (landing_of v.now index.now) leaf numbers.old.items numbers.new.items) }
    ensures err { IfErr result (λ e. e ≢ TargetError.Memory → landing_of v.now index.now ≡ Err e) }
{
    match v {
        View::Leaf { array, transform } => land_in_array(array, transform, index, numbers),
        View::Cast { base, .. } => land(base.get(), numbering, index, numbers),
        View::Stack { layers, transform } => {
            let mut inner = [0i64; LARGEST_RANK];
            let (inner, _) = inner.split_at_mut(transform.maps().len());
            let layers = layers.items();
            let Some(place) = covering(layers, axis(numbering), transform, index, inner) else {
                return Err(TargetError::Uncovered);
            };
            match land(&layers[place], below(numbering, place), inner, numbers) {
                Ok(leaf) => Ok(first_leaf(numbering, place) + leaf),
                Err(e) => Err(e),
            }
        }
    }
}

// The last of a stack's layers that has the transform's value, which is put into the buffer.
fn covering(
    layers: &[View],
    axis: Option<usize>,
    transform: &Transform,
    index: &[i64],
    inner: &mut [i64],
) -> Option<usize>
    requires axis { IfSome axis (IsAxis (length transform.now.maps) layers.now) }
    requires room { length inner.old ≡ length transform.now.maps }
    requires inside { IsTrue (has_index transform.now.domain.dims index.now) }
    ensures some { IfSome result (λ place. IsLastLayer layers.now (value_at transform.now index.now) (Some place)) }
    ensures value { IfSome result (λ place. inner.new ≡ value_at transform.now index.now) }
    ensures none { result ≡ None → IsLastLayer layers.now (value_at transform.now index.now) None }
{
    if !finite_values(transform, index, inner) {
        return None;
    }
    let end = end_of(layers, axis, inner);
    last_with(layers, end, inner)
}

// Puts the numbers of a transform at an index vector of its domain into the buffer, as far as they are finite indices.
fn finite_values(transform: &Transform, index: &[i64], out: &mut [i64]) -> bool
    requires room { length out.old ≡ length transform.now.maps }
    requires inside { IsTrue (has_index transform.now.domain.dims index.now) }
    ensures finite { result ≡ true → out.new ≡ value_at transform.now index.now }
    ensures infinite { result ≡ false → (dims : List Bounds)
        → has_index dims (value_at transform.now index.now) ≡ false }
{
    for output in 0..out.len() {
        let number = transform.number(output, index);
        if !is_index(number) {
            return false;
        }
        out[output] = number as i64;
    }
    true
}

// The last of some layers whose domain has an index vector, where those behind an end don't have it.
fn last_with(layers: &[View], end: usize, index: &[i64]) -> Option<usize>
    requires end { end ≤ length layers.now }
    requires behind { LackIndex end layers.now index.now }
    ensures { IsLastLayer layers.now index.now result }
{
    for behind in 0..end {
        let place = end - 1 - behind;
        if contains(&layers[place], index) {
            return Some(place);
        }
    }
    None
}

// The same in an array, which is the first leaf of its view.
fn land_in_array(
    array: &ArrayRef,
    transform: &Transform,
    index: &[i64],
    numbers: &mut Vec<u64>,
) -> Result<u32, TargetError>
    requires node { length transform.now.maps ≡ length array.now.shape }
    requires inside { IsTrue (has_index transform.now.domain.dims index.now) }
    ensures ok { IfOk result (λ leaf. IsPut (first_landing
        (in_shape 0 (value_at transform.now index.now) array.now.shape)) leaf numbers.old.items numbers.new.items) }
    ensures err { IfErr result (λ e. e ≢ TargetError.Memory
        → first_landing (in_shape 0 (value_at transform.now index.now) array.now.shape) ≡ Err e) }
{
    index_in(transform, index, array.shape.items(), numbers)?;
    Ok(0)
}

// Puts the numbers of a transform behind those that are there, where they lie inside a shape.
fn index_in(
    transform: &Transform,
    index: &[i64],
    shape: &[u64],
    numbers: &mut Vec<u64>,
) -> Result<(), TargetError>
    requires ranks { length transform.now.maps ≡ length shape.now }
    requires inside { IsTrue (has_index transform.now.domain.dims index.now) }
    requires sizes { IsShape shape.now }
    ensures ok { OnOk result (IsInside (in_shape 0
        (value_at transform.now index.now) shape.now) numbers.old.items numbers.new.items) }
    ensures err { IfErr result (λ e. e ≢ TargetError.Memory
        → IsOutside (in_shape 0 (value_at transform.now index.now) shape.now) e) }
{
    for (dim, size) in shape.iter().enumerate() {
        let number = transform.number(dim, index);
        if number < 0 || i128::from(*size) <= number {
            return Err(TargetError::OutOfRange { dim: dim as u32 });
        }
        if numbers.push(number as u64).is_err() {
            return Err(TargetError::Memory);
        }
    }
    Ok(())
}
