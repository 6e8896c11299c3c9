//! Chunks of an array, and the strided runs in which a view's cells lie in them.
//!
//! Other crates rest on two things: `chunk_of` and `place_in` tell a cell and nothing else, and `runs` and `runs_of` have
//! each cell of the view once, at its own place, by `run_pieces`.
#![tactic(auto)]

mod boxes;
mod boxing;
mod cuts;
mod cutting;
mod grid;
mod piece;
mod rows;
mod slots;

pub use cutting::{runs, runs_of};
pub use grid::{Grid, is_grid};
pub use piece::RunPiece;
