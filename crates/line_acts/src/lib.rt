//! What a line of a script does to views: names that are bound to them, views after a line's steps, joined views, the words of a write, the
//! answers to reads and to what refuses a view.
//!
//! Nothing here takes a turn or has a transaction. Crates above rest on one relation, `IsAnswerTo`: a line that is refused is answered the
//! printed refusal of what the history says it asks for, or want of memory.
#![tactic(auto)]

mod binding;
mod causes;
mod cell_faults;
mod changing;
mod joining;
mod names;
mod reading;
mod values;
mod viewing;
mod writing;

pub use binding::{bound, bound_with, viewed_body};
pub use cell_faults::{counted, targets_body};
pub use changing::{changed, seen};
pub use joining::joined;
pub use line_meanings::{
    Answer, Body, Command, DownWant, JoinForm, OpenPlan, bad_metadata, damaged, has_few_lists,
    read_command, refusal, transform_has_few_lists,
};
pub use names::{Names, bind, named, unknown};
pub use reading::asked_read;
pub use stack_targets::TargetsError;
pub use values::values_body;
pub use viewing::viewed;
pub use writing::{Worded, taken_write};
