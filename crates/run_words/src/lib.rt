//! What the words of the command line ask for.
//!
//! `read_words` is the one call. Others rest on three things: `Ok` comes exactly where the words have a meaning (`IsSettings`),
//! words have at most one, and the settings keep to their limits (`KeepsLimits`).
#![tactic(auto)]

mod error;
mod files;
mod options;
mod settings;
mod words;

pub use error::WordsError;
pub use settings::{Input, Settings};
pub use words::read_words;
