// Begin and abort.
ghost use Rattle.std.specs.Prelude.{◌≡◌, ℕ, Option};
ghost use Rattle.std.specs.FinMap as finmap;
ghost use Rattle.history.specs.History.{History};
ghost use Rattle.history.specs.Legal.{IsLegal};
ghost use Rattle.history.specs.Lines.{beginning, aborting};
ghost use Rattle.history.specs.Sessions.{Names};
ghost use Rattle.sessions.specs.Commits.{HasSoundTxn};
ghost use Rattle.session_turns.specs.Standing.{session_state, transaction_in};
ghost use Rattle.session_turns.specs.Told.{IsToldAlone};
ghost use Rattle.session_turns.specs.Agreement.{Opening};
ghost use Rattle.session_turns.specs.Outline.{outline};

use history::Mode;
use session_turns::{Body, Txn};
use std::alloc::Global;

/// Begins a transaction at a line, where none stands. No turn is taken.
pub fn begin(alloc: Global, line: u64, mode: Mode, txn: &mut Option<Txn>) -> Body
    ensures told { (names : Names) (seen : ℕ)
        → IsToldAlone (session_state names seen txn.old) line (beginning mode) names (transaction_in txn.new) result }
    ensures txn { (opening : Opening) (events : History) → IsLegal finmap.empty (outline events)
        → HasSoundTxn opening events txn.old → HasSoundTxn opening events txn.new }
{
    if txn.is_some() {
        return Body::InTransaction;
    }
    *txn = Some(Txn::begin(alloc, line, mode));
    Body::Begun
}

/// Ends the transaction that stands, and nothing of it is done. No turn is taken.
pub fn abort(line: u64, txn: &mut Option<Txn>) -> Body
    ensures told { (names : Names) (seen : ℕ)
        → IsToldAlone (session_state names seen txn.old) line aborting names (transaction_in txn.new) result }
    ensures txn { (opening : Opening) (events : History) → HasSoundTxn opening events txn.old
        → HasSoundTxn opening events txn.new }
{
    match txn.take() {
        Some(t) => {
            t.abort();
            Body::Aborted
        }
        None => Body::NoTransaction,
    }
}
