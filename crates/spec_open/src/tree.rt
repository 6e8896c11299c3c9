use cells::{Boxed, Dtype, List, Name};
use index_transform::Transform;

/// The nodes of a Spec over its leaves; `at` is a node's path in the Spec, and `transform` goes into the node's own domain.
///
/// `leaf` is a leaf's number from left to right. `dtype` of a stack is the one that its Spec names, which has to be that of its
/// layers.
///
/// TensorStore, drivers `cast` and `stack`.
#[derive(Debug, Drop)]
pub enum Tree {
    Leaf {
        leaf: u32,
        transform: Option<Transform>,
        at: Name,
    },
    Cast {
        to: Dtype,
        base: Boxed<Tree>,
        transform: Option<Transform>,
        at: Name,
    },
    Stack {
        layers: List<Tree>,
        dtype: Option<Dtype>,
        transform: Option<Transform>,
        at: Name,
    },
}
