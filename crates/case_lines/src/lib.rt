//! What programs of cases share: why a line has no answer, the members of a line, answers as text, and the stores and arrays that lines name.
//!
//! Programs rest on three things: `word_of` and `zero` give words of the dtype (`IsWord`), `may_be_local` tells a shape that an array of the run
//! may have (`IsLocalShape`), and `dense` gives cells of that shape. What is read of a line is tested and not claimed.
#![tactic(auto)]

mod arrays;
mod fault;
mod locals;
mod looks;
mod numbers;
mod reading;
mod stores;
mod telling;
mod wants;

pub use arrays::array_of;
pub use fault::Fault;
pub use locals::{dense, may_be_local};
pub use looks::{look, transform_text};
pub use numbers::{bytes, dtype, numbers_of, sizes, sizes_of, word_of, zero};
pub use reading::{
    flag, integer, is_true, items, items_if, member, number, number_or, text, text_of, word,
};
pub use stores::{content, mount_names, put_bytes, put_gets, store_of};
pub use telling::{as_line, line_or_no_case, lines_or_no_case, said, told, told_line};
pub use wants::want;
