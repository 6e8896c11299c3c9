//! What the lines of a session share: turns (the bounds of an array, a new shape, the opening of a leaf), and what an answer to a line is.
//!
//! Crates above rest on two relations. `IsTurn`: what a pass has seen behind a turn is what it had seen, others' events, and behind them its
//! own; from it follow the numbers of its events, and the rows of the history that openings and resizes are. `IsTold`: what a line is
//! answered is the printed answer of a row of the history's session.
#![tactic(auto)]

mod asked;
mod cell_faults;
mod turns;

pub use asked::Asked;
pub use cell_faults::fault_body;
pub use line_acts::{
    Answer, Body, Command, DownWant, JoinForm, Names, OpenPlan, Worded, asked_read, bad_metadata,
    bound, bound_with, damaged, joined, named, read_command, refusal, taken_write,
    transform_has_few_lists, unknown, values_body, viewed,
};
pub use state_resizes::{Bounds, OpenError, Opened, ResizeError};
pub use transactions::{
    Around, CommitError, CommitRefused, Gate, Kept, OpenGate, ReadError, State, Txn, WriteError,
};
pub use turns::{bounds_in_turn, open_given_in_turn, open_in_turn, resize_in_turn};
