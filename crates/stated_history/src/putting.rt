// The events of commits.
ghost use Rattle.std.specs.Prelude.{◌≡◌, ◌<◌, Some, IfOk, OnOk, length, set};
ghost use Rattle.std.specs.List.{AllByRecursion, slice_get};
ghost use Rattle.history.specs.Commit.{kept_ops};
ghost use Rattle.history.specs.declared.event.Event.{Event as EventOf};
ghost use Rattle.stated_history.specs.Commits.{commit_of, kind_in, event_with, is_undone};
ghost use Rattle.stated_history.specs.StatedHistories.{ArePutIn, AreStatedWithCommits, NoneIsClaimed};
ghost use Rattle.stated_acts.specs.Standings.{transaction_of};

use cells::List;
use history::{Event, Kind, Mode, Ops};
use stated_acts::Ongoing;
use std::alloc::{AllocError, Global};

/// A commit: the line where its transaction was begun, the flags, and all that it did.
#[derive(Drop)]
pub struct Commit {
    pub line: u64,
    pub mode: Mode,
    pub ops: Ops,
}

impl Commit {
    /// That of a transaction.
    ///
    /// # Errors
    /// An allocation failed.
    pub(crate) fn of(alloc: Global, transaction: Ongoing) -> Result<Commit, AllocError>
        requires { kept_ops (transaction_of transaction) ≡ transaction.ops.items }
        ensures { IfOk result (λ c. kind_in c ≡ commit_of (transaction_of transaction)) }
    {
        let Ongoing { line, mode, ops } = transaction;
        let ops = Ops::wrap(alloc, List::wrap(ops))?;
        Ok(Commit { line, mode, ops })
    }

    // What its event does; the operations are shared.
    fn kind(&self) -> Result<Kind, AllocError>
        ensures { IfOk result (λ k. k ≡ kind_in self.now) }
    {
        let ops = self.ops.share()?;
        Ok(Kind::Done {
            line: self.line,
            mode: self.mode,
            ops,
            key: None,
        })
    }
}

/// Puts commits into an outline, in place of the events that stand for them: at each number the one of the line that prints it, which
/// stands at the number's spot. The events share the operations.
///
/// # Errors
/// An allocation failed.
pub fn put_commits(
    events: &mut [Event],
    spots: &[u64],
    commits: &[Option<Commit>],
) -> Result<(), AllocError>
    requires count { length spots.now ≡ length events.old }
    requires spots { AllByRecursion (λ spot. spot < length commits.now) spots.now }
    ensures { OnOk result (ArePutIn events.old events.new commits.now spots.now) }
{
    for k in 0..events.len() {
        put_at(events, k, &commits[spots[k] as usize])?;
    }
    Ok(())
}

/// The events with the commits of all lines are the history that is told, legal or not; and where a line prints other numbers than those
/// of its events, no history is claimed.
pub fn commits_complete_the_history()
    ensures stated { AreStatedWithCommits }
    ensures none { NoneIsClaimed }
{}

// Puts a commit, if there is one, at a place where an event stands for one.
fn put_at(events: &mut [Event], k: usize, commit: &Option<Commit>) -> Result<(), AllocError>
    requires { k < length events.old }
    ensures each { OnOk result ((e : EventOf) → slice_get events.old k ≡ Some e
        → events.new ≡ set events.old k (event_with commit.now e)) }
    ensures count { length events.new ≡ length events.old }
{
    if !is_undone(&events[k].kind) {
        return Ok(());
    }
    match commit {
        Some(commit) => put_kind(events, k, commit),
        None => Ok(()),
    }
}

fn put_kind(events: &mut [Event], k: usize, commit: &Commit) -> Result<(), AllocError>
    requires { k < length events.old }
    ensures each { OnOk result ((e : EventOf) → slice_get events.old k ≡ Some e
        → events.new ≡ set events.old k (record { owner = e.owner; kind = kind_in commit.now })) }
    ensures count { length events.new ≡ length events.old }
{
    let kind = commit.kind()?;
    let owner = events[k].owner;
    events[k] = Event { owner, kind };
    Ok(())
}

// Whether an event of an outline stands for a commit.
fn is_undone(kind: &Kind) -> bool
    ensures { result ≡ is_undone kind.now }
{
    match kind {
        Kind::Fault { mount } => mount.items().is_empty(),
        Kind::Opened { .. } => false,
        Kind::Done { .. } => false,
        Kind::Resized { .. } => false,
    }
}
