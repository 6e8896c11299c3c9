//! The targets of all cells of a view at once, in buffers.
//!
//! Crates above rest on `all_targets`: where each cell lies, in C order, or the first cell that lies nowhere. A cell's leaf is
//! told by its number, counted from left to right.
#![tactic(auto)]

mod axes;
mod buffers;
mod error;
mod landing;
mod naming;
mod numbering;
mod targeting;

pub use buffers::Targets;
pub use error::TargetsError;
pub use naming::{array_at, casts_at, has_leaf};
pub use targeting::targets;
