//! Whether an answer is one that a read of a transcript may have.
#![tactic(auto)]

mod conflicts;
mod fetches;
mod own;
mod reads;
mod spot;
mod values;

pub use conflicts::{Committer, Conflict, commits_are_answered};
pub use fetches::{is_fetched, is_stored};
pub use line_fits::{
    Answer, Body, Event, EventNumbers, Waiting, Window, commit_may_fail, ends_of, failed_behind,
    is_answered, is_committed, is_told, is_written, lasts_of, sweep, sweep_into, window_at,
    write_may_fail,
};
pub use own::{Own, stays_own};
pub use reads::{ReadFit, fit_read};
pub use spot::Spot;
pub use stated_arrays::{
    Asked, BuildCause, BuildError, LeafOutcome, OpenPlan, Openings, SpecLeaf, Tree, Wanted,
    array_opened, array_ref, build, joined, outcome_after, place_next, wanted_by,
};
pub use version_store::VersionStore;
