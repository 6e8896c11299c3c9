use cells::Name;
use history::{Mode, Ops};

/// A commit, or one key of it: where its transaction was begun, its flags and its operations.
#[derive(Debug, Drop)]
pub struct Commit {
    /// The line of `begin`.
    pub line: u64,
    pub mode: Mode,
    pub ops: Ops,
    /// The key that the event changes, where the commit has an event for each.
    pub key: Option<Name>,
}
