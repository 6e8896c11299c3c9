use crate::reference::ArrayRef;
use cast_driver::{Boxed, Dtype, List};
use transform_composition::Transform;

/// An array seen through a transform, a cast of a view, or a stack of views under a transform.
///
/// TensorStore, drivers `zarr`, `array`, `cast` and `stack`.
#[derive(Debug, Drop)]
pub enum View {
    Leaf {
        array: ArrayRef,
        transform: Transform,
    },
    Cast {
        to: Dtype,
        base: Boxed<View>,
    },
    Stack {
        layers: List<View>,
        transform: Transform,
    },
}
