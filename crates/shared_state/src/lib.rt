//! The state that the sessions of a run share: its events, the store that holds what they say, and what is kept beside them.
//!
//! Crates above rest on one relation, `Agrees`: a state agrees with what was read off when it began. Each call keeps that, and says
//! which events it adds.
#![tactic(auto)]

mod book;
mod changing;
mod decoding;
mod fetching;
mod generation;
mod keeping;
mod leaf;
mod looking;
mod making;
mod reshaping;
mod state;

pub use state::{State, StateRefused};
pub use state_laws::{
    ArrayInfo, AtStart, Bounds, ChangeError, Commit, Deed, Event, FetchError, Fetched, HeldCells,
    Home, Kind, Look, MetaCause, Mode, NewShape, Op, OpenError, Opened, Ops, decode,
    metadata_change,
};
