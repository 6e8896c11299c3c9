//! Parts that the lines of a script share: names, the least faulty member, steps and a transform.
//!
//! What reads a command by its name rests on these, and on `LineError`: why a line is no command.
#![tactic(auto)]

mod error;
mod faults;
mod names;
mod parts;
mod transforms;

pub use error::LineError;
pub use faults::{earlier, first_fault, missing, name_at, no_name, unless_so};
pub use names::{name_of, owned};
pub use parts::{at_fault, name_in, steps_in};
pub use spec_forms::{SpecError, SpecLeaf, joined};
pub use transforms::{faulty_transform, transform_in};
