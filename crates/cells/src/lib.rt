//! Numbers and words of the eight dtypes, and the lists that public types hold.
//!
//! Other crates rest on three things: a list type equals the list of its values in every contract, `Boxed` equals the
//! value inside, and a word stands for the number that `number_of` says.
#![tactic(auto)]

mod bytes;
mod convert;
mod dense;
mod dtype;
mod dtype_names;
mod element;
mod items;
mod limits;
mod order;
mod places;
mod run;
mod shapes;

pub use bytes::{put_word, take_word};
pub use convert::conv;
pub use dense::Dense;
pub use dtype::Dtype;
pub use limits::{
    GREATEST_INDEX, INFINITY, LARGEST_RANK, LARGEST_SIZE, LONGEST_LABEL, MOST_CELLS,
    MOST_CHUNK_CELLS, MOST_ENTRIES,
};
pub use list_types::{
    Boxed, Index, List, Name, SeenWords, Sizes, Words, WrittenWords, copy_name, copy_sizes,
};
pub use order::Order;
pub use places::{count_cells, divided, index_of, place};
pub use run::Run;
pub use shapes::{is_chunk_shape, is_inside, is_shape};
