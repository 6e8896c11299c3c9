//! Leaves of JSON Specs, and the members that all Specs share.
//!
//! `spec_open` rests on what is read of a member in its turn, in byte order with the unknown ones (`judged_in_turn`), and on three
//! definitions: `stored_at` and `given_at` are the leaf that a Spec asks for, or its first fault at its path, and `tail_at` is its
//! transform.
#![tactic(auto)]

mod error;
mod given;
mod kvstore;
mod leaf;
mod members;
mod numbers;
mod paths;
mod places;
mod stored;

pub use error::SpecError;
pub use given::given_at;
pub use leaf::SpecLeaf;
pub use members::{Tail, false_at, judged_dtype, required, tail_at};
pub use places::{at_path, joined, judged_in_turn, none_before, own_fault};
pub use stored::stored_at;
pub use want_forms::Format;
