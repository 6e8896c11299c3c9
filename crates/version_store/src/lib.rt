//! The words of all chunks of a run, behind each of its events.
//!
//! Of each array is kept how its chunks begin, and of each chunk that a commit wrote, its versions. Crates above rest on three things: what
//! is kept stays right behind each opening and each commit (`IsStoreOf`), a moment is found at which the history shows the cells of a read,
//! exactly where there is one, and so is which events touched a chunk.
#![tactic(auto)]

mod asking;
mod filling;
mod opening;
mod placed;
mod putting;
mod showing;
mod store;

pub use chunk_versions::{AskedCell, ChunkVersions};
pub use history::{ArrayInfo, Home};
pub use placed::PlacedWord;
pub use store::VersionStore;
