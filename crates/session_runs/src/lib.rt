//! A session: its lines one after another, and what it has answered.
//!
//! Crates above rest on one relation, `IsSessionOn`: the log of a session is the printed one of a run of the history's session on the
//! lines that it was given, over what its pass has seen.
#![tactic(auto)]

mod answering;
mod commands;
mod scripts;
mod session;

pub use scripts::run_script;
pub use session::Session;
pub use session_openings::{
    Around, Asked, CommitError, CommitRefused, Gate, Kept, OpenGate, ReadError, State, Txn,
    WriteError, open_given_in_turn, open_in_turn, resize_in_turn,
};
