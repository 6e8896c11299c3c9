//! A value behind a turn: one thread at a time has it, and each pass knows a beginning of its history.
//!
//! Other crates rest on the contracts of `start`, `take`, `give` and `close` alone: whoever takes the turn finds a history
//! that begins with all that his pass had seen and has just his own entries under his number.
#![tactic(auto)]

mod book;
mod held;
mod pass;
mod rule;
mod seats;
mod turn;
mod view;

pub use book::Book;
pub use held::Held;
pub use pass::Pass;
pub use turn::{Refused, TurnBook};
pub use view::{Claim, SeatView};
