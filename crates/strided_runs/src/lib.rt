//! Pairs of places cut into strided runs: pair by pair, line by line, and nested loops at once.
//!
//! Other crates rest on two things: `Growing` has the runs of the pairs that were put to it, by `grown`, and
//! `runs_of_loops` has the runs of the pairs of its loops, by `runs_of_pairs`.
#![tactic(auto)]

mod growing;
mod lines;

pub use growing::Growing;
pub use lines::{Loop, runs_of_loops};
