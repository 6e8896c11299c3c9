//! Casts between dtypes, and chains of them, in both directions.
//!
//! A view that shows an array in another dtype reads and writes through a chain. Other crates rest on two things: a word
//! that comes out of a cast stands for the one number of the new range that is congruent to the old one, and a chain is
//! its casts one after another, outwards the first one first and back the last one first.
#![tactic(auto)]

mod cast;
mod chain;

pub use cast::Cast;
pub use cells::{Boxed, Dtype, Index, List, Name, Sizes};
pub use chain::Chain;
