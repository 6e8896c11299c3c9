//! The lists, texts and boxes that public types hold as fields.
//!
//! Other crates rest on one thing: a list type equals the list of its values in every contract, a `Name` the bytes of its
//! text, and a `Boxed` the value inside.
#![tactic(auto)]

mod boxed;
mod copies;
mod list;
mod name;
mod words;
mod written;

pub use boxed::Boxed;
pub use copies::{copy_name, copy_sizes};
pub use list::List;
pub use name::Name;
pub use words::{Index, Sizes, Words};
pub use written::{SeenWords, WrittenWords};
