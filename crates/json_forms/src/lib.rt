//! JSON between bytes and data: what bytes say, what a value holds, and the one text of a value.
//!
//! The formats of this repository are JSON, read by `serde_json` and written compactly with the members of each object
//! in byte order. Contracts here speak of a value's data (`view` of `serde_json`): `data_of` is the data that bytes are,
//! `whole_number` the integer that a value holds, `has_exactly` and `least_unknown` say which members an object has, and
//! `list_of` and `object_of` are the data that is written.
#![tactic(auto)]

mod bytes;
mod lists;
mod members;
mod numbers;

pub use bytes::{ParseError, compact, parse};
pub use lists::{i64_list, list_from_i64s, list_from_u64s, list_items, u64_list, whole_list};
pub use members::{has_exactly, least_unknown};
pub use numbers::whole_number;
