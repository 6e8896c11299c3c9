//! Cells that are staged over a chunk, and strided runs between a view and a chunk.
//!
//! A transaction keeps what it writes apart until its commit. Other crates rest on three things: staged cells are at each
//! place a word or none, laid over a chunk they change exactly the cells that are staged, and a run acts as its pairs do one
//! by one.
#![tactic(auto)]

mod marks;
mod rising;
mod run;
mod staged;

pub use run::read_run;
pub use staged::Staged;
