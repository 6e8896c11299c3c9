//! Where an array is kept: the keys of its chunks and its metadata, and what opening it finds there.
//!
//! Crates above rest on three things. The keys are those of `history`, and the name of a chunk is read back without memory.
//! Stored bytes are the metadata that they spell, or are refused by the first thing wrong with them. What opening a leaf gives
//! is its outcome by what the store holds, or by the array that the history has.
#![tactic(auto)]

mod chunk_names;
mod deciding;
mod decoding;
mod forms;
mod infos;
mod keys;
mod looks;
mod metadata;
mod numbers;
mod read;

pub use chunk_names::{is_chunk_name, local_number};
pub use deciding::{Decided, OpeningRefusal, check, decide};
pub use decoding::decode;
pub use forms::{form_of, written_form};
pub use infos::{array_ref, chunk_shape, given_info, new_info};
pub use keys::{chunk_key, home_text, metadata_key, metadata_key_asked};
pub use looks::{is_local, mount_of};
pub use metadata::metadata_change;
pub use read::{FormReadError, MetaCause, read_form};
