//! Intervals of indices with explicit or implicit bounds.
//!
//! The lowest layer of the index space: every bound of a domain goes through `Interval`. Other crates rest on three
//! things: an interval's bounds are in order (`AreBounds`), `contains` decides `IsMember`, and `meet`, `shift`,
//! `strided` and `slice` give exactly the bounds, flags and members that `specs/` defines.
#![tactic(auto)]

mod around;
mod edge;
mod error;
mod interval;
mod slice;

pub use around::around_all;
pub use edge::{Edge, Ends, interval_of};
pub use error::{BadBounds, Overflow, ZeroStep};
pub use interval::{INFINITY, Interval, is_index};
pub use slice::{SliceError, Sliced};
