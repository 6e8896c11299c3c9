//! Whether a transcript is a legal history of its scripts.
#![tactic(auto)]

mod acts;
mod changing;
mod fitting;
mod frames;
mod judge;
mod judging;
mod line_fit;
mod one_answer;
mod opening;
mod pending;
mod reading;
mod stand;

pub use history::{ArrayInfo, Event, Home, Kind, Op};
pub use judging::are_answered;
pub use open_fits::{VersionStore, sweep_into};
pub use stated_history::{
    Act, AskedLine, Asking, Command, Commit, Cutting, Openings, Said, Source, StatedLines,
    commits_complete_the_history, cut, number_events, put_commits, read_lines, state_commits,
    state_openings,
};
