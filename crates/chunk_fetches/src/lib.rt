//! Chunks that a read needs: looked at in one turn, decoded outside of it, handed to the state in another, and kept.
//!
//! Crates above rest on `AreFetched`: each chunk that was fetched is kept as it was after one number of events, no less than were seen before.
#![tactic(auto)]

mod around;
mod decoding;
mod error;
mod fetching;
mod gate;
mod kept;
mod looked;
mod looking;
mod settling;
mod source;
mod turns;

pub use around::Around;
pub use error::{ReadError, ViewFault};
pub use fetching::fetch;
pub use gate::{Gate, OpenGate};
pub use kept::Kept;
pub use looking::{array_in, index_in};
pub use shared_state::{Bounds, State};
pub use source::Source;
pub use transaction_cells::{Piece, Staging, ViewCells, locate};
