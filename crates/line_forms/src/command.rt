use cells::{List, Name, Sizes};
use downsample_view::Method;
use index_transform::Transform;
use serde_json::Value;
use spec_open::OpenPlan;
use step_forms::Step;

/// How a read is downsampled: a factor per dimension, and what stands for the cells that come together.
#[derive(Debug, Drop)]
pub struct DownWant {
    pub factors: Sizes,
    pub method: Method,
}

/// How views are joined; `axis` is the dimension along which they are.
#[derive(Clone, Copy, Debug, PartialEq, Eq)]
pub enum JoinForm {
    Overlay,
    Concat { axis: u32 },
    Stack { axis: u32 },
}

/// What a line asks for. Steps that a line doesn't have are none.
#[derive(Debug, Drop)]
pub enum Command {
    /// Open what the Spec tells, and bind the name to its view.
    Open {
        name: Name,
        plan: OpenPlan,
    },
    /// Bind the name to the view of another, seen through the transform and the steps.
    View {
        name: Name,
        of: Name,
        transform: Option<Transform>,
        steps: List<Step>,
    },
    /// Bind the name to the views that are joined, seen through the transform and the steps.
    Join {
        name: Name,
        form: JoinForm,
        layers: List<Name>,
        transform: Option<Transform>,
        steps: List<Step>,
    },
    /// Read the numbers of a view.
    Read {
        name: Name,
        steps: List<Step>,
        down: Option<DownWant>,
    },
    /// Write values, any JSON yet, to a view.
    Write {
        name: Name,
        steps: List<Step>,
        values: Value,
    },
    /// Begin a transaction.
    Begin {
        atomic: bool,
        repeatable_read: bool,
    },
    Commit,
    Abort,
    /// Give the stored array of a view another shape.
    Resize {
        name: Name,
        shape: Sizes,
    },
    /// Take the bounds of a view anew.
    Resolve {
        name: Name,
    },
}
