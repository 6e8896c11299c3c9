//! Arrays of the eight dtypes as Zarr version 2 stores them: metadata, keys of chunks, and chunks.
//!
//! Crates above rest on what bytes spell. `SpellsMetadata` ties the bytes of `.zarray` to an array's metadata, and
//! `SpellsChunk` ties a chunk's bytes to the word at each index vector of the chunk; reading answers what the bytes
//! spell, and writing spells its argument. `chunk_key` is a chunk's name below its array.
#![tactic(auto)]

mod chunk;
mod key;
mod members;
mod metadata;
mod read;
mod write;

pub use chunk::{decode, encode};
pub use chunk_elements::{
    ChunkError, Dense, Dtype, List, MOST_CHUNK_CELLS, Order, Sizes, count_cells, is_chunk_shape,
    is_shape,
};
pub use key::key_of;
pub use members::{
    ElementType, judged_compressor, judged_fill, judged_filters, judged_order, judged_separator,
    judged_type,
};
pub use meta_forms::MetaError;
pub use metadata::{ZarrMeta, ZarrWant};
pub use read::read_meta;
pub use write::write_meta;
