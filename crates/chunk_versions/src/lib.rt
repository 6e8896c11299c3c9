//! The words that one chunk had, behind each event of a run, without a copy of the chunk.
//!
//! Each place has its versions, newest first: which event put the word, and the word. Crates above rest on two things: `put` adds a word
//! that counts from its event on and changes nothing before, and `find_mark` finds a moment at which the chunk shows the cells of a read,
//! exactly where there is one.
#![tactic(auto)]

mod asked;
mod marks;
mod put;
mod reach;
mod touches;
mod versions;
mod walks;

pub use asked::AskedCell;
pub use versions::ChunkVersions;
