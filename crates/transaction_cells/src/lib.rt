//! The cells of a transaction: where those of a view lie by chunks, and what is staged of each chunk.
//!
//! Crates above rest on three things: `locate` has each cell of a view once, in its chunk at its place, `Staging` has at each
//! cell the word that the transaction's operations put there last, and `gather` shows a view through both.
#![tactic(auto)]

mod along_runs;
mod cell_leaves;
mod cuts;
mod gathering;
mod lane;
mod lanes;
mod locating;
mod outside;
mod staged_words;
mod staging;
mod view_cells;

pub use cell_leaves::CellLeaves;
pub use lane::Lane;
pub use locating::locate;
pub use staging::Staging;
pub use view_cells::{Piece, ViewCells};
