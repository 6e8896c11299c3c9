//! Lines of a script, and the words of a write's values.
//!
//! A session cuts a script with `cut`, passes over lines that `is_blank`, and takes the words of a write with `words_of_values`. Others
//! rest on two things: `lines_of` says which lines a script has, and `words_of` which words values give.
#![tactic(auto)]

mod cutting;
mod words;

pub use cutting::{cut, is_blank};
pub use words::{ValuesError, nested_words, words_of_values};
