//! Elements of chunks: cells of the eight dtypes, each of its dtype's size in bytes, in either byte order, one after another or as a block of
//! which some cells are stored with the first index fastest.
//!
//! Other crates rest on three relations. `SpellsWords` ties bytes to the words that they are one after another; `StoresWords` ties
//! the bytes of stored cells to the words of their block in C order; `SpellsChunk` ties a chunk's bytes to the word at each index
//! vector, by the layout that a format states.
#![tactic(auto)]

mod count;
mod dense;
mod element;
mod error;
mod long;
mod moving;
mod plane;
mod putting;
mod taking;

pub use cells::{
    Dense, Dtype, LARGEST_RANK, List, MOST_CHUNK_CELLS, Order, Sizes, count_cells, is_chunk_shape,
    is_shape, put_word, take_word,
};
pub use dense::{bytes_of_dense, dense_of, dense_of_block, put_dense};
pub use error::ChunkError;
