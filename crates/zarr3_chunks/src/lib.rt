//! Arrays of the eight dtypes as Zarr version 3 stores them with the codec "bytes" alone: metadata, keys of chunks, and
//! chunks.
//!
//! Crates above rest on what bytes spell. `SpellsMetadata` ties the bytes of `zarr.json` to an array's metadata, and
//! `SpellsChunk` ties a chunk's bytes to the word at each index vector of the chunk; reading answers what the bytes
//! spell, and writing spells its argument. `chunk_key` is a chunk's name below its array.
#![tactic(auto)]

mod chunk;
mod key;
mod members;
mod metadata;
mod read;
mod write;

pub use chunk::{decode, encode};
pub use chunk_elements::ChunkError;
pub use key::key_of;
pub use members::{grid_sizes, judged_codecs, judged_dtype, judged_keys, judged_node};
pub use meta_forms::MetaError;
pub use metadata::{Zarr3Meta, Zarr3Want};
pub use read::read_meta;
pub use write::write_meta;
