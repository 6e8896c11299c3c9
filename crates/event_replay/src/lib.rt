//! The events of a stated history, one after another into what is kept of all chunks.
//!
//! Crates above rest on two things: behind a commit what is kept is that of the history with its words, and it is told whether each of its
//! Reads has the words that were there; and `sweep` tells whether a stated history may have happened, and whether what reads ask of it was there.
#![tactic(auto)]

mod demand;
mod demanding;
mod ends;
mod following;
mod locating;
mod meeting;
mod pairs;
mod reading;
mod replaying;
mod sweeping;
mod waiting;
mod windows;
mod writing;

pub use demand::{AskedPiece, Demand};
pub use demanding::demand_of;
pub use history::{Event, Kind, Op};
pub use meeting::is_met;
pub use replaying::replay;
pub use sweeping::{sweep, sweep_into};
pub use transaction_cells::{Piece, ViewCells, locate};
pub use version_store::VersionStore;
pub use waiting::Waiting;
