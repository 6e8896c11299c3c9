//! What a commit leaves of each chunk that it writes: prepared before its turn, or worked out in it.
//!
//! Crates above rest on `IsPlanOf`, what is left of a chunk are its words with the staged ones over them, whether they were prepared
//! before or are laid now; on `IsAsked`, what a turn told of a chunk; and on `ready_right`: prepared bytes that a later commit may use are
//! what it leaves of the chunk.
#![tactic(auto)]

mod asked;
mod asking;
mod held;
mod leaving;
mod mark;
mod plan;
mod planning;
mod reading;
mod readying;
mod sorting;
mod write;

pub use asked::{Asked, Part, Under};
pub use asking::ask_all;
pub use chunk_laying::{count_cut, cut, cut_chunks, is_gone, stays_within};
pub use leaving::{LeftOver, left_over};
pub use mark::Mark;
pub use plan::{Left, Planned};
pub use planning::plan_write;
pub use readying::write_of;
pub use shared_state::{
    Bounds, ChangeError, Commit, Deed, FetchError, HeldCells, Look, MetaCause, NewShape, OpenError,
    Opened, State, decode, metadata_change,
};
pub use sorting::{sort_marks, sort_writes};
pub use write::{ChunkWrite, Ready};
