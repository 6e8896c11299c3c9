//! The lines of a session that open a Spec or take a view's bounds anew.
//!
//! Crates above rest on the relation of `session_turns`, `IsToldBy`: what a line is answered is the printed answer of a row of the history's
//! session. Of every store there is `AreTold`: the answer tells the events that the line added.
#![tactic(auto)]

mod building;
mod leaves;
mod nodes;
mod opening;
mod resolving;

pub use opening::open;
pub use resolving::resolve;
pub use sessions::{
    Answer, Around, Asked, Body, Command, CommitError, CommitRefused, DownWant, Gate, JoinForm,
    Kept, Names, OpenGate, OpenPlan, ReadError, State, Txn, WriteError, abort, begin, commit, join,
    open_given_in_turn, open_in_turn, read, read_command, refusal, resize, resize_in_turn, view,
    write,
};
