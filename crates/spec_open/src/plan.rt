use crate::tree::Tree;
use cells::List;
use spec_forms::SpecLeaf;

/// What a Spec asks to be opened: its leaves from left to right, and the tree over them.
#[derive(Debug, Drop)]
pub struct OpenPlan {
    pub leaves: List<SpecLeaf>,
    pub tree: Tree,
}
