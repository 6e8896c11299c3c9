//! Whether an answer is one that an open line of a transcript may have.
#![tactic(auto)]

mod asking;
mod built;
mod moments;
mod nodes;
mod opens;
mod questions;
mod refusals;
mod settling;

pub use asking::{are_refused, opened_is_unrefused};
pub use opens::{OpenFit, fit_open};
pub use questions::{OpenQuestion, OpenTold, WantedPlan};
pub use read_fits::{
    Committer, Conflict, Event, EventNumbers, Own, ReadFit, Spot, VersionStore, Waiting, Window,
    commit_may_fail, ends_of, failed_behind, fit_read, is_answered, is_committed, is_fetched,
    is_stored, is_written, lasts_of, sweep, sweep_into, window_at, write_may_fail,
};
