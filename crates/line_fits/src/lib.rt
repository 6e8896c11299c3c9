//! Which answers a line of a transcript may have, over the history that the transcript states.
#![tactic(auto)]

mod answers;
mod bodies;
mod causes;
mod failing;
mod looks;
mod told;
mod windows;

pub use answers::is_told;
pub use event_replay::{
    AskedPiece, Demand, Event, VersionStore, Waiting, demand_of, sweep, sweep_into,
};
pub use failing::{commit_may_fail, write_may_fail};
pub use told::{failed_behind, is_answered, is_committed, is_written};
pub use transcript_cut::{Answer, Body, EventNumbers};
pub use windows::{Window, ends_of, lasts_of, window_at};
