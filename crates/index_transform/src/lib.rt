//! Index transforms: what the cells of a domain are in another index space.
//!
//! A `Transform` has an input domain and one map per output dimension, and keeps the rules on both. Other crates rest
//! on `value_at`, which says what a transform gives at an index vector, and on the domain and the form of maps that
//! each call gives.
#![tactic(auto)]

mod copies;
mod count;
mod domain;
mod error;
mod map;
mod number;
mod shape;
mod transform;
mod value;
mod walk;

pub use cells::{Index, List, MOST_ENTRIES, Name, Sizes, count_cells};
pub use copies::{copied_interval, copied_map, copied_maps};
pub use domain::{Domain, are_labels, copied_names, look_at_all};
pub use error::{AtError, CountError, TransformError};
pub use index_intervals::{Edge, Ends, INFINITY, Interval, around_all, interval_of, is_index};
pub use map::{OutMap, fits, size_of};
pub use transform::Transform;
pub use value::{is_effective, scaled};
pub use walk::{Walk, lower_bounds};
