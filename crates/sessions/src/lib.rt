//! The lines of a session: what each command does, and its answer.
//!
//! Crates above rest on one relation, `IsTold` (`session_turns`): what a line is answered is the printed answer of a row of the history's
//! session.
#![tactic(auto)]

mod beginning;
mod committing;
mod joining;
mod reading;
mod resizing;
mod staging;
mod viewing;
mod writing;

pub use beginning::{abort, begin};
pub use committing::commit;
pub use joining::join;
pub use reading::read;
pub use resizing::resize;
pub use session_turns::{
    Answer, Around, Asked, Body, Bounds, Command, CommitError, CommitRefused, DownWant, Gate,
    JoinForm, Kept, Names, OpenError, OpenGate, OpenPlan, Opened, ReadError, State, Txn,
    WriteError, bad_metadata, bound_with, bounds_in_turn, named, open_given_in_turn, open_in_turn,
    read_command, refusal, resize_in_turn, transform_has_few_lists,
};
pub use staging::write;
pub use viewing::view;
