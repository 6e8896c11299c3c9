//! Answers to what refuses a line: its form, stored metadata, a damaged chunk.
//!
//! A session above has causes from many crates and answers each by one body. It rests on two definitions: `refusal_body` is the answer
//! to a line that is no command, and `text_of` the output of a log of the history's answers, whose bodies are `body_of`.
#![tactic(auto)]

mod causes;
mod refusing;

pub use answer_text::{Answer, Body, has_few_lists, transform_has_few_lists};
pub use causes::{bad_metadata, damaged};
pub use history::{Form, Want};
pub use refusing::refusal;
