//! The commands of a script's lines, each read once into a typed form.
//!
//! A session above calls `read_command` and does what the command asks. It rests on one definition: `command_of_line` is the command
//! that bytes are, or why they are none.
#![tactic(auto)]

mod begin;
mod command;
mod joins;
mod lines;
mod open;
mod read;
mod shapes;
mod view;
mod write;

pub use command::{Command, DownWant, JoinForm};
pub use line_parts::{LineError, joined};
pub use lines::read_command;
pub use spec_open::{BuildCause, BuildError, OpenPlan, SpecError, SpecLeaf, Tree};
