// The same view under another transform.
ghost use Rattle.std.specs.Prelude.{◌≡◌, ◌≢◌, length, IfOk, IfErr, Ok, Err};
ghost use Rattle.stack_driver.specs.Changes.{under, moved, HasTargetsOf};
ghost use Rattle.stack_driver.specs.Conditions.{IsView};
ghost use Rattle.stack_driver.specs.Views.{own_transform};
ghost use Rattle.transform_composition.specs.declared.error.ComposeError.{ComposeError};

use crate::look::transform_of;
use crate::view::View;
use std::alloc::Global;
use transform_composition::{ComposeError, Transform, compose};

/// Gives a view another own transform: a leaf or a stack this one, a cast's base likewise. Nothing is composed, so a bound
/// that was marked implicit stays so.
pub fn set_transform(v: &mut View, transform: Transform)
    ensures value { v.new ≡ under transform v.old }
    ensures view { IsView v.old → length transform.maps ≡ length (own_transform v.old).maps → IsView v.new }
{
    put_transform(v, transform);
}

fn put_transform(v: &mut View, transform: Transform)
    ensures { v.new ≡ under transform v.old }
{
    match v {
        View::Leaf { transform: own, .. } => *own = transform,
        View::Cast { base, .. } => put_transform(base.get_mut(), transform),
        View::Stack { transform: own, .. } => *own = transform,
    }
}

/// The view seen through a further transform: its cell at an index vector is the old view's cell at the transform's value.
///
/// # Errors
///
/// Those of `compose`, with the view's own transform as the outer one. The view is gone then.
pub fn with_transform(alloc: Global, v: View, inner: &Transform) -> Result<View, ComposeError>
    ensures ok { IfOk result (λ w. moved v inner.now ≡ Ok w) }
    ensures err { IfErr result (λ e. e ≢ ComposeError.Memory → moved v inner.now ≡ Err e) }
    ensures targets { IfOk result (λ w. HasTargetsOf w v inner.now) }
    ensures view { IfOk result (λ w. IsView v → IsView w) }
{
    let mut moved = v;
    let transform = compose(alloc, transform_of(&moved), inner)?;
    set_transform(&mut moved, transform);
    Ok(moved)
}
