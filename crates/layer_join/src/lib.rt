//! Views joined: laid over one another, put behind one another along an axis, or beside one another along a new dimension.
//!
//! Crates above rest on `join_answer`, which says what each call gives or why it is refused, and on `IsJoined`: the joined view
//! has the domain and the targets of its layers.
#![tactic(auto)]

mod error;
mod joining;
mod placing;
mod refusing;
mod sliding;

pub use error::JoinError;
pub use joining::{concat, overlay, stack};
