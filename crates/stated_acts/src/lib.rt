//! What the lines of a transcript do, session by session: how a session stands behind them, and which events they
//! state.
//!
//! `act_of` tells what a line does for a session that stands so, or its refusal; `Standing::step` how the session
//! stands behind it and its answer. Others rest on two definitions of `transcript_laws`: a line's act is `act_at`, and
//! a session stands as `standing_step` says, over each history that opens the arrays which are stated.
#![tactic(auto)]

mod acts;
mod cell_faults;
mod copies;
mod opened_views;
mod printing;
mod said_answer;
mod standing;

pub use acts::{Act, act_of};
pub use line_acts::{Answer, Body, values_body, viewed_body};
pub use opened_views::view_opened;
pub use printing::may_print;
pub use said_answer::{ReadAnswer, SaidAnswer, SaidValues};
pub use standing::{Ongoing, Standing};
pub use stated_arrays::{
    Asked, AskedLine, Asking, BuildCause, BuildError, Command, Cutting, KeptAnswer, LeafOutcome,
    OpenPlan, Openings, Said, SpecLeaf, Tree, Wanted, array_opened, array_ref, build, bytes_of,
    cut, joined, number_events, outcome_after, place_next, read_lines, state_openings, wanted_by,
    words_told,
};
