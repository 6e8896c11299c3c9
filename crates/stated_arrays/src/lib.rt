//! Arrays that a transcript states: which events are openings, and by which leaf of which open line.
//!
//! `state_openings` gives the outline of the history that a cut and numbered transcript states: an opening at each number of a new array,
//! and at all others an event that counts as nothing; or it tells that no history is stated. Others rest on two definitions: what is
//! given is the stated outline (`IsStatedOutline`), and each history that is claimed has it.
#![tactic(auto)]

mod acts;
mod arrays;
mod asked;
mod lines;
mod openings;
mod outcomes;
mod serving;
mod stating;
mod told_words;

pub use acts::bytes_of;
pub use asked::{Asked, Wanted, wanted_by};
pub use openings::{Openings, state_openings};
pub use outcomes::{LeafOutcome, array_at, array_opened, outcome_after, place_next};
pub use told_words::words_told;
pub use transcript_cut::{
    AskedLine, Asking, BuildCause, BuildError, Command, Cutting, EventNumbers, KeptAnswer,
    LineError, OpenPlan, Said, SpecError, SpecLeaf, Tree, array_ref, build, cut, joined,
    number_events, read_command, read_lines,
};
