//! Views: arrays seen through transforms and casts, and stacks of views.
//!
//! Crates above rest on `target_of`, which says where each cell of a view lies: in which array, at which index vector, and
//! behind which casts. A view is plain data in contracts, and each node of it keeps `IsNode`.
#![tactic(auto)]

mod changing;
mod copying;
mod counting;
mod error;
mod look;
mod place;
mod reference;
mod renewing;
mod stacking;
mod targeting;
mod view;
mod wholes;

pub use cast_driver::Cast;
pub use changing::{set_transform, with_transform};
pub use copying::copy;
pub use counting::{casts, deepest, depth, leaves};
pub use error::{RenewError, StackError, TargetError};
pub use look::{array_of, dtype, transform_of};
pub use place::Target;
pub use reference::ArrayRef;
pub use renewing::renew;
pub use stacking::{first_unlike, stacked_domain};
pub use targeting::{contains, target};
pub use transform_composition::{ComposeError, Domain, OutMap};
pub use view::View;
pub use wholes::whole;
