//! A bounded cache of chunks, the last used first.
//!
//! The state keeps the chunks that it decoded last, so that a chunk that is read again costs no call of the store. Other
//! crates rest on one thing: a cache is a list of keys with what is kept under them, and each call changes it exactly as
//! `after_hit`, `after_keep` and `after_drop` say.
#![tactic(auto)]

mod cache;
mod entries;
mod refused;
mod snapshot;

pub use cache::ChunkCache;
pub use refused::KeepRefused;
pub use snapshot::{Snapshot, as_snapshot};
