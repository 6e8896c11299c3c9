//! Steps that change each selected dimension by itself: they move it, take every so many indices or a part of it, label
//! it, or set the flags of its bounds.
//!
//! Other crates rest on `cut_answer`, `label_answer` and `mark_answer`, which say what each step gives, and on `stepped`,
//! which takes a transform over new dimensions.
#![tactic(auto)]

mod cause;
mod cut;
mod cutting;
mod dims;
mod emptied;
mod label;
mod mark;
mod slice;
mod stepping;
mod stride;
mod translate;

pub use cause::{Cause, Fault, with_cause};
pub use cut::Cut;
pub use cutting::with_cuts;
pub use dims::{copied_label, dim_at, label_at, others, position_of, spot_in};
pub use label::labelled;
pub use mark::{varies_along, with_marks};
pub use stepping::stepped;
