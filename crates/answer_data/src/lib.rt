//! Answers to the lines of a script as JSON data, and that their texts read back.
//!
//! There is no code here. `answer_data` says which object an answer is, `IsAnswerText` that a text is the line of an object with the number
//! of a script's line. Others rest on one law: the text of an answer whose numbers take 64 bits and whose texts are UTF-8 is such a line,
//! and its object is the answer's. So who has a text, and its object, knows which answers it may be the text of. A second law says that
//! the words of a view's cells are read back from its values.
#![tactic(auto)]

mod texts;

pub use answer_text::{
    Answer, Body, BuildCause, BuildError, JoinError, MetaWhy, OpenPlan, SpecError, SpecLeaf, Tree,
    Why, build, render,
};
pub use texts::{reads_back, values_read_back};
