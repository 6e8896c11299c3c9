//! The history that a transcript states.
//!
//! A walk over the lines of all sessions gives the commit of each (`state_commits`), and `put_commits` puts these into the outline that
//! `stated_arrays` gives. Others rest on one law: what comes out is the history that the transcript states, legal or not; and where
//! the walk tells of other numbers than those of a line's events, no history is claimed.
#![tactic(auto)]

mod commits;
mod kept;
mod putting;
mod walk;

pub use commits::{Source, act_said, answer_said, pass_line, state_commits};
pub use kept::StatedLines;
pub use putting::{Commit, commits_complete_the_history, put_commits};
pub use stated_acts::{
    Act, Answer, AskedLine, Asking, Body, Command, Cutting, KeptAnswer, Ongoing, OpenPlan,
    Openings, ReadAnswer, Said, SaidAnswer, SaidValues, cut, number_events, read_lines,
    state_openings, viewed_body,
};
pub use walk::Walk;
