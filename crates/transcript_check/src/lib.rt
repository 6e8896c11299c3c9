//! Whether a transcript fits its scripts.
//!
//! `check` answers for scripts and a transcript as bytes, `check_run` for files. Others rest on two contracts: the verdict of `check` is
//! right (`IsVerdict` of `transcript_laws`), and the line that `check_run` gives to the sink is that of the right verdict on what the files hold.
#![tactic(auto)]

mod checking;
mod copies;
mod files;
mod running;
mod stating;
mod telling;
mod verdict;
mod words;

pub use checking::check;
pub use running::check_run;
pub use script_streams::{MemoryScripts, MemorySink, Reader, Writer};
pub use stating::stated_history_may_be_swept;
pub use transcript_fits::{
    Asking, Command, Cutting, Openings, Said, Source, cut, number_events, read_lines,
    state_openings,
};
pub use verdict::Verdict;
