//! Giving a stored array a new shape, by one change of the store or none.
//!
//! Crates above rest on `IsResize`: the answer by each opening with which the state agreed, and what stays.
#![tactic(auto)]

mod cutting;
mod error;
mod filling;
mod keys;
mod making;
mod reshaped;
mod resizing;

pub use chunk_plans::{Bounds, MetaCause, OpenError, Opened};
pub use error::ResizeError;
pub use resizing::resize;
