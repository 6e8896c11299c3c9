// Commits.
ghost use Rattle.std.specs.Prelude.{◌≡◌, ℕ, None, Some, Err, length};
ghost use Rattle.session_turns.specs.CommitAnswers as commit_answers;
ghost use Rattle.history.specs.Lines.{committing};
ghost use Rattle.history.specs.Sessions.{Names};
ghost use Rattle.session_turns.specs.Bodies.{body_of};
ghost use Rattle.session_turns.specs.Failures.{TellsFailures};
ghost use Rattle.session_turns.specs.Standing.{session_state, transaction_in};
ghost use Rattle.session_turns.specs.Turns.{IsRested, HasPassed, added_by};
ghost use Rattle.sessions.specs.Caused.{IsCausedBy};
ghost use Rattle.sessions.specs.Commits.{HasSoundTxn, IsCommittedAs, IsCommitTold};
ghost use Rattle.turn_book.specs.Passes.{IsIdle};

use kv_face::KvStore;
use session_turns::{Around, Body, CommitError, CommitRefused, Gate, State, Txn, damaged};
use std::sync::Wait;
use turn_book::Pass;

/// Commits the transaction that stands. It stands on where a chunk was damaged, and where the store failed before anything of it was
/// done.
pub fn commit<K: KvStore, R: Wait, G: Gate>(
    around: &Around<K, R, G>,
    pass: &mut Pass<State<K>>,
    txn: &mut Option<Txn>,
) -> Body
    requires pass { IsRested around.now.book.now pass.old }
    requires txn { HasSoundTxn around.now.book.now.fixed pass.old.seen txn.old }
    ensures told { IsCommitTold around.now.book.now pass.old pass.new txn.old txn.new result }
    ensures caused { (names : Names) (line : ℕ) → IsCausedBy around.now.book.now pass.old pass.new
        (session_state names (length pass.old.seen) txn.old) line committing names (transaction_in txn.new) result }
    ensures failures { TellsFailures (added_by pass.old pass.new) result }
    ensures passed { HasPassed around.now.book.now pass.old pass.new }
    ensures txn { HasSoundTxn around.now.book.now.fixed pass.new.seen txn.new }
{
    match txn.take() {
        Some(t) => committed(around, pass, txn, t),
        None => Body::NoTransaction,
    }
}

// Commits a transaction, and puts it back where it stands on.
fn committed<K: KvStore, R: Wait, G: Gate>(
    around: &Around<K, R, G>,
    pass: &mut Pass<State<K>>,
    txn: &mut Option<Txn>,
    t: Txn,
) -> Body
    requires pass { IsIdle around.now.book.now pass.old }
    requires none { txn.old ≡ None }
    requires sound { HasSoundTxn around.now.book.now.fixed pass.old.seen (Some t) }
    ensures { IsCommittedAs around.now.book.now pass.old pass.new t txn.new result }
{
    match t.commit(around, pass) {
        Ok(numbers) => Body::Committed { events: numbers },
        Err(e) => refused(txn, e),
    }
}

fn refused(txn: &mut Option<Txn>, e: CommitError) -> Body
    ensures body { result ≡ body_of (commit_answers.body_of (Err e.why)) }
    ensures left { txn.new ≡ e.left }
{
    let CommitError { why, left } = e;
    *txn = left;
    refused_body(why)
}

/// The answer to a commit that is refused.
pub(crate) fn refused_body(why: CommitRefused) -> Body
    ensures { result ≡ body_of (commit_answers.body_of (Err why)) }
{
    match why {
        CommitRefused::Conflict { key, read, now } => Body::Conflict { key, read, now },
        CommitRefused::Shrunk { key, now } => Body::Shrunk { key, now },
        CommitRefused::NotAtomic { keys } => Body::NotAtomic { keys },
        CommitRefused::Damaged { key, cause } => damaged(key, cause),
        CommitRefused::StoreFailed { event, done } => Body::StoreFailed {
            event,
            done,
            events: None,
        },
        CommitRefused::Memory => Body::Memory,
    }
}
