//! Arrays of the eight dtypes as N5 stores them: metadata, keys of blocks, and blocks.
//!
//! Crates above rest on what bytes spell. `SpellsMetadata` ties the bytes of `attributes.json` to an array's metadata.
//! `StoresCells` is the grammar of a block of which some sizes are stored, and `SpellsBlock` ties a block's bytes to the
//! word at each index vector of the block; reading answers what the bytes spell, and writing spells its argument.
//! `block_key` is a block's name below its array.
#![tactic(auto)]

mod chunk;
mod faults;
mod key;
mod members;
mod metadata;
mod read;
mod write;

pub use chunk::{BlockError, cut_sizes, decode, encode};
pub use key::key_of;
pub use members::{judged_compression, judged_dtype};
pub use meta_forms::MetaError;
pub use metadata::{N5Meta, N5Want};
pub use read::read_meta;
pub use write::write_meta;
