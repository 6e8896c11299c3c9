//! Dimension expressions: what steps make of an index transform, one after another.
//!
//! Other crates rest on `applied`, the transform after the last of some steps, and on `IsAfterAll`: each step's result has
//! at each cell the value that the transform before it has at the step's old index vector.
#![tactic(auto)]

mod applying;
mod arrays;
mod at;
mod diagonal;
mod error;
mod left;
mod newaxis;
mod oindex;
mod transpose;
mod vindex;

pub use applying::apply;
pub use error::ApplyError;
