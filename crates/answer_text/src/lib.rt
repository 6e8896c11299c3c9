//! Answers to the lines of a script, and their text.
//!
//! A session above answers each line with an `Answer`, and writes it with `render`. Others rest on two definitions: `answer_text` is
//! how an answer is spelled, to the byte, and `is_ok_answer` tells which lines did what they ask for.
#![tactic(auto)]

mod answer;
mod before;
mod behind;
mod causes;
mod lists;
mod members;
mod ok;
mod pieces;
mod rendering;
mod values;

pub use answer::{Answer, Body, MetaWhy, Why};
pub use layer_join::JoinError;
pub use lists::has_few_lists;
pub use ok::is_ok;
pub use rendering::render;
pub use spec_open::{BuildCause, BuildError, OpenPlan, SpecError, SpecLeaf, Tree, build};
pub use transform_json::transform_has_few_lists;
