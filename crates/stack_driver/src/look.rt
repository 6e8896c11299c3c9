ghost use Rattle.std.specs.Prelude.{◌≡◌, Some, None, IfSome, IfNone};
ghost use Rattle.stack_driver.specs.Leaves.{IsLeafOf};
ghost use Rattle.stack_driver.specs.Renewed.{array_of};
ghost use Rattle.stack_driver.specs.Views.{look_of, own_transform};

use crate::reference::ArrayRef;
use crate::view::View;
use cast_driver::Dtype;
use transform_composition::Transform;

/// The dtype that a view shows; that of a stack is its first layer's.
pub fn dtype(v: &View) -> Dtype
    ensures { result ≡ (look_of v.now).dtype }
{
    match v {
        View::Leaf { array, .. } => array.dtype,
        View::Cast { to, .. } => *to,
        View::Stack { layers, .. } => {
            let layers = layers.items();
            if layers.is_empty() {
                Dtype::I32
            } else {
                dtype(&layers[0])
            }
        }
    }
}

/// A leaf's or a stack's own transform, a cast's base's.
pub fn transform_of(v: &View) -> &Transform
    ensures domain { result.now.domain.dims ≡ (look_of v.now).dims }
    ensures value { result.now ≡ own_transform v.now }
{
    match v {
        View::Leaf { transform, .. } => transform,
        View::Cast { base, .. } => transform_of(base.get()),
        View::Stack { transform, .. } => transform,
    }
}

/// The array of a leaf, through casts; `None` for a stack under casts. Each target of the view is this array at the value of
/// the view's transform, behind the view's casts.
pub fn array_of(v: &View) -> Option<&ArrayRef>
    ensures some { IfSome result (λ r. array_of v.now ≡ Some r.now) }
    ensures none { IfNone result (array_of v.now ≡ None) }
    ensures targets { IfSome result (λ r. IsLeafOf v.now r.now) }
{
    match v {
        View::Leaf { array, .. } => Some(array),
        View::Cast { base, .. } => array_of(base.get()),
        View::Stack { .. } => None,
    }
}
