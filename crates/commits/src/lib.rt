//! A transaction's commit: refused for what it has read, for what was cut, or for what can't be done together; or made, as one event or
//! as one for each key.
//!
//! Each event is made by plans of what is left of each chunk (`ArePlans`), in one call of the store (`commit_planned`). Crates above rest on
//! `IsCommitRow`: an answer with the events that it adds is a row of a session's step.
#![tactic(auto)]

mod commit;
mod each;
mod joint;
mod keeping;
mod late;
mod making;
mod mount;
mod outside;
mod parts;
mod planning;
mod prepared;
mod refused;
mod stored;
mod way;
mod writes;

pub use chunk_plans::{Asked, ChunkWrite, Mark, Part, ask_all, sort_marks, sort_writes, write_of};
pub use commit::commit_now;
pub use prepared::Prepared;
pub use refused::CommitRefused;
