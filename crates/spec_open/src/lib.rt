//! JSON Specs: what is to be opened, and the view over what was opened.
//!
//! `read_spec` gives the leaves of a Spec from left to right and the tree over them, and `build` the view of the tree once each
//! leaf has an array. Crates above rest on two definitions: `plan_of_spec` is the plan that a JSON value is, or its first fault
//! at its path, and `built` is the view of a tree, or the first node that is refused.
#![tactic(auto)]

mod building;
mod driver;
mod error;
mod leaves;
mod nodes;
mod plan;
mod reading;
mod tree;

pub use building::build;
pub use error::{BuildCause, BuildError};
pub use plan::OpenPlan;
pub use reading::read_spec;
pub use spec_forms::{SpecError, SpecLeaf};
pub use tree::Tree;
