//! What a commit or a new shape does to the cells of one chunk, and which chunks a new shape cuts.
//!
//! Crates above rest on three things: `lay` and `cut` give a chunk's words cell by cell, with the fill past the array's
//! shape, `covers` tells whether a commit needs the chunk that there is, `stays_within` whether it puts a word past the shape, and cut
//! chunks are counted and listed without a walk over the others.
#![tactic(auto)]

mod asking;
mod counting;
mod covering;
mod laying;
mod listing;
mod remaining;
mod rows;
mod within;

pub use asking::is_chunk_of;
pub use counting::{MOST_CUT_CHUNKS, count_cut};
pub use covering::covers;
pub use laying::{cut, lay, lay_in};
pub use listing::cut_chunks;
pub use remaining::{is_cut_in_part, is_gone};
pub use within::stays_within;
