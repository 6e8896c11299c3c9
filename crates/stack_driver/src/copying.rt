ghost use Rattle.std.specs.Prelude.{◌≡◌, IfOk};
ghost use Rattle.stack_driver.specs.declared.view.View.TheVariants as view;

use crate::reference::ArrayRef;
use crate::view::View;
use cast_driver::{Boxed, Dtype, List, Sizes};
use std::alloc::{AllocError, Global};
use transform_composition::Transform;

/// A view equal to this one.
///
/// # Errors
///
/// Want of memory alone.
#[cycle(copy)]
pub fn copy(alloc: Global, v: &View) -> Result<View, AllocError>
    ensures { IfOk result (λ w. w ≡ v.now) }
{
    match v {
        View::Leaf { array, transform } => leaf_copy(alloc, array, transform),
        View::Cast { to, base } => cast_of(alloc, *to, copy(alloc, base.get())?),
        View::Stack { layers, transform } => {
            stack_of(alloc, copies(alloc, layers.items())?, transform)
        }
    }
}

#[cycle(copy)]
fn copies(alloc: Global, layers: &[View]) -> Result<Vec<View>, AllocError>
    ensures { IfOk result (λ vs. vs.items ≡ layers.now) }
{
    let mut copies = Vec::with_capacity(alloc, layers.len())?;
    for layer in layers {
        copies.push(copy(alloc, layer)?)?;
    }
    Ok(copies)
}

fn leaf_copy(alloc: Global, array: &ArrayRef, transform: &Transform) -> Result<View, AllocError>
    ensures { IfOk result (λ w. w ≡ view.Leaf array.now transform.now) }
{
    let array = reference_copy(alloc, array)?;
    Ok(View::Leaf {
        array,
        transform: transform.copy(alloc)?,
    })
}

fn cast_of(alloc: Global, to: Dtype, base: View) -> Result<View, AllocError>
    ensures { IfOk result (λ w. w ≡ view.Cast to base) }
{
    Ok(View::Cast {
        to,
        base: Boxed::new(alloc, base)?,
    })
}

fn stack_of(alloc: Global, layers: Vec<View>, transform: &Transform) -> Result<View, AllocError>
    ensures { IfOk result (λ w. w ≡ view.Stack layers.items transform.now) }
{
    Ok(View::Stack {
        layers: List::wrap(layers),
        transform: transform.copy(alloc)?,
    })
}

// A reference equal to this one.
pub(crate) fn reference_copy(alloc: Global, array: &ArrayRef) -> Result<ArrayRef, AllocError>
    ensures { IfOk result (λ r. r ≡ array.now) }
{
    let shape = array.shape.items().to_vec(alloc)?;
    Ok(ArrayRef {
        number: array.number,
        dtype: array.dtype,
        shape: Sizes::wrap(shape),
        chunk: Sizes::wrap(array.chunk.items().to_vec(alloc)?),
        local: array.local,
    })
}
