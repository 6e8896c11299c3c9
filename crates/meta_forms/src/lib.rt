//! What the metadata of all chunk formats share: how a member of a JSON object is judged, and what is told of a fault.
//!
//! Crates above rest on `MetaError`, which names the first member at fault, and on the judgements of single members:
//! shapes, chunk shapes, formats' numbers and fills. `named` ties a judgement to the name of its member.
#![tactic(auto)]

mod error;
mod faults;
mod judged;
mod members;
mod sizes;

pub use error::{Fault, MetaError};
pub use faults::{fault_of, named};
pub use json_forms::{ParseError, compact, list_from_u64s, list_items, parse};
pub use judged::{judged_format, judged_len, judged_word};
pub use members::{is_null_at, is_object_at, is_there, list_len_at, text_in, whole_at};
pub use sizes::{checked_chunks, checked_shape, sizes_at};
