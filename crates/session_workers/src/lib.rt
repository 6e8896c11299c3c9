//! Several sessions over mounts, each with a script, on several workers.
//!
//! Crates above rest on one relation, `IsRun`. Its part `serial` is the promise: over one empty store that makes all changes of a commit
//! together, transactions whose reads are repeatable are serial, in the order of the numbers that their commits print. Below it stands
//! `AreSessionLogs`: each session was given its script's lines, it has seen a beginning of the history that is left in the end, and the events
//! of its number there are its own.
#![tactic(auto)]

mod dealing;
mod gathering;
mod naming;
mod running;
mod runs;
mod working;

pub use kv_mounts::{BoxedStore, Mount};
pub use runs::{Finished, run_over};
pub use session_runs::{Gate, OpenGate};
