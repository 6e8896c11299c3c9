//! Transactions: what a session reads, stages and commits over the turn.
//!
//! Crates above rest on one relation, `IsTxnIn`: beside what its pass has seen, what a transaction has staged is what its operations wrote,
//! and each chunk that it keeps is the one after its mark.
#![tactic(auto)]

mod commit_turns;
mod committing;
mod error;
mod keeping;
mod located;
mod planning;
mod preparing;
mod reading;
mod shared_ops;
mod stray;
mod straying;
mod txn;

pub use chunk_fetches::{Around, Gate, Kept, OpenGate, ReadError, State, ViewFault};
pub use commits::CommitRefused;
pub use error::{CommitError, WriteError};
pub use txn::Txn;
