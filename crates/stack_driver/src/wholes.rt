// The view of a whole array.
ghost use Rattle.std.specs.Prelude.{◌≡◌, ◌≤◌, ◌-◌, ◌^◌, map, IfOk, [], length};
ghost use Rattle.cast_driver.specs.Shapes.{IsShape};
ghost use Rattle.transform_composition.specs.Transforms.{IsDomain};
ghost use Rattle.stack_driver.specs.Conditions.{IsView};
ghost use Rattle.stack_driver.specs.Arrays.{array_dim, array_domain, whole_view};

use crate::reference::ArrayRef;
use crate::view::View;
use cast_driver::{List, Name};
use std::alloc::{AllocError, Global};
use transform_composition::{Domain, Interval, Transform};

/// The view of a whole array. Its domain begins at 0 along each dimension; its upper bounds are implicit where a store holds
/// the array, and explicit where the run does.
///
/// # Errors
///
/// Want of memory alone.
pub fn whole(alloc: Global, array: ArrayRef) -> Result<View, AllocError>
    ensures value { IfOk result (λ v. v ≡ whole_view array) }
    ensures view { IfOk result IsView }
{
    let domain = array_domain(alloc, &array)?;
    Ok(View::Leaf {
        array,
        transform: Transform::identity(alloc, domain)?,
    })
}

pub(crate) fn array_domain(alloc: Global, array: &ArrayRef) -> Result<Domain, AllocError>
    ensures value { IfOk result (λ d. d ≡ array_domain array.now) }
    ensures rules { IfOk result IsDomain }
{
    let shape = array.shape.items();
    let dims = array_dims(alloc, array.local, shape)?;
    Ok(Domain {
        dims: List::wrap(dims),
        labels: List::wrap(no_labels(alloc, shape)?),
    })
}

fn array_dims(alloc: Global, local: bool, shape: &[u64]) -> Result<Vec<Interval>, AllocError>
    requires { IsShape shape.now }
    ensures { IfOk result (λ dims. dims.items ≡ map (array_dim local) shape.now) }
{
    let mut dims = Vec::with_capacity(alloc, shape.len())?;
    for size in shape {
        dims.push(array_dim(local, *size))?;
    }
    Ok(dims)
}

fn array_dim(local: bool, size: u64) -> Interval
    requires { size ≤ 2 ^ 62 - 2 }
    ensures { result ≡ array_dim local size }
{
    Interval {
        lo: 0,
        hi: size as i64 - 1,
        lo_implicit: false,
        hi_implicit: !local,
    }
}

// An empty label for each dimension.
fn no_labels(alloc: Global, shape: &[u64]) -> Result<Vec<Name>, AllocError>
    ensures { IfOk result (λ labels. labels.items ≡ map (λ size. []) shape.now) }
{
    let mut labels = Vec::with_capacity(alloc, shape.len())?;
    for _size in shape {
        labels.push(Name::wrap(String::new(alloc)))?;
    }
    Ok(labels)
}
