//! Index transforms over one another: a domain tightened by another, and the composition of two transforms.
//!
//! Other crates rest on `tighten_answer` and `composed`, which say what the two calls give, and on `Agrees`: a composition
//! has the outer value at the inner value.
#![tactic(auto)]

mod composing;
mod error;
mod inside;
mod reading;
mod tightening;

pub use composing::compose;
pub use error::ComposeError;
pub use index_transform::{
    AtError, Domain, Interval, OutMap, Transform, TransformError, around_all, copied_maps,
    copied_names, is_index, look_at_all,
};
pub use tightening::tighten;
