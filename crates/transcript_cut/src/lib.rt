//! A transcript cut into the answers to the lines of its scripts, and the numbers of events that these print.
//!
//! A checker of transcripts begins here. `read_lines` gives the commands of the lines or finds the first that isn't checked, `cut` gives each line
//! its answer, and `number_events` the line of each event. Others rest on three definitions of `transcript_laws`: `IsFirstUnchecked`, `IsCut` with
//! `IsCutOff`, and `AreNumbered`.
#![tactic(auto)]

mod answers;
mod compact;
mod cursor;
mod cutting;
mod line_end;
mod numbering;
mod numbers;
mod plain;
mod rise;
mod said;
mod spots;
mod unchecked;

pub use cutting::{Cutting, cut};
pub use numbering::number_events;
pub use numbers::EventNumbers;
pub use said::{AskedLine, KeptAnswer, Said, Span};
pub use transcript_laws::{
    Answer, Body, BuildCause, BuildError, Command, JoinError, LineError, MetaWhy, OpenPlan,
    SpecError, SpecLeaf, Tree, Why, array_ref, build, form_of, given_info, joined, new_info,
    read_command, render,
};
pub use unchecked::{Asking, read_lines};
