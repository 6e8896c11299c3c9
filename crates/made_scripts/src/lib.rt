//! Scripts made from a number, and the one line that tells how a run of them went.
//!
//! Crates above run the nine scripts of `make_scripts` where no files are given, and write `summary` in place of all answers. They rest on
//! two definitions: `made` tells the text of each script, to the byte, and `summary_text` the line.
#![tactic(auto)]

mod pieces;
mod scripts;
mod telling;

pub use answer_text::{Answer, Body};
pub use scripts::make_scripts;
pub use telling::summary;
