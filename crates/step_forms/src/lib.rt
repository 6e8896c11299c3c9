//! Steps of dimension expressions: their forms, reading them from JSON, and which dimensions they select.
//!
//! Other crates rest on three things: `steps_of_json` says which steps a JSON value is, `IsGiven` what each of them keeps,
//! and `selected_of` which dimensions a step selects.
#![tactic(auto)]

mod act;
mod error;
mod numbers;
mod reading;
mod selection;
mod selector;
mod slices;

pub use act::{Act, Numbers, PerDim, Select, SlicePart, Slices, Step};
pub use error::StepsError;
pub use reading::read_steps;
pub use selection::{SelectError, dim_numbered, from_end, has_repeat, selected};
