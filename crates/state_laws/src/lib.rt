//! What a run keeps of its events (`Records`); what the shared state's contracts say: definitions, the laws over them, and the values that
//! its calls take and give; and the parts of these calls that need no state.
//!
//! Crates above rest on two things: what `Records` tells of an array is what `known_after` says of it, and a state agrees (`Agrees`) with
//! what was read off when it began. `proofs/Laws` tells what keeps that.
#![tactic(auto)]

mod applying;
mod arrays;
mod arrival;
mod at_start;
mod commit;
mod deciding;
mod deed;
mod entering;
mod error;
mod generations;
mod index;
mod key_names;
mod making;
mod opening;
mod place;
mod placing;
mod reading;
mod records;
mod writing;

pub use applying::{apply, apply_owned, together};
pub use array_homes::{
    Decided, MetaCause, OpeningRefusal, array_ref, chunk_key, decode, form_of, given_info,
    is_chunk_name, is_local, local_number, metadata_change, metadata_key, mount_of, new_info,
};
pub use arrival::NewArray;
pub use at_start::AtStart;
pub use commit::Commit;
pub use deciding::{decided, refused};
pub use deed::{ChangeError, Deed, HeldCells, NewShape};
pub use entering::{add_given, add_new, enter_commit, enter_shape, prepare_all};
pub use error::{FetchError, GetError};
pub use history::{
    ArrayInfo, Damage, Event, Form, FormError, Home, Kind, Mode, Op, Ops, Want, mismatch,
};
pub use index::is_index_of;
pub use key_names::{local_at, name_in};
pub use making::{given_array, new_array};
pub use opening::{OpenError, Opened};
pub use place::{Names, Place};
pub use placing::place_of;
pub use reading::{Bounds, Fetched, Look};
pub use records::Records;
pub use writing::{make_place, write_array};
