//! What a line of a script means to the history of a run.
//!
//! A session above does what a command asks. It rests on one definition: `line_of` is the command in the history's words, of which
//! `act_of` and the rows of a session's step speak.
#![tactic(auto)]

pub use dim_expressions::{ApplyError, apply};
pub use line_answers::{
    Answer, Body, bad_metadata, damaged, has_few_lists, refusal, transform_has_few_lists,
};
pub use line_forms::{
    BuildCause, BuildError, Command, DownWant, JoinForm, LineError, OpenPlan, SpecLeaf, Tree,
    joined, read_command,
};
pub use zarr_chunks::ZarrMeta;
