//! JSON of index transforms and domains, both ways.
//!
//! Crates above rest on three definitions: `transform_of` is the transform that a value is, or the path of its first
//! faulty member, and `transform_data` and `domain_data` are the values that are written.
#![tactic(auto)]

mod arrays;
mod bounds;
mod error;
mod input;
mod member;
mod output;
mod read;
mod uppers;
mod write;

pub use error::JsonError;
pub use read::read_transform;
pub use write::{transform_has_few_lists, write_domain, write_transform};
