// The operations of a commit, one after another.
ghost use Rattle.std.specs.Prelude.{◌++◌, ◌∷◌, ◌↔◌, [], ℕ, List, IfOk, IsTrue};
ghost use Rattle.history.specs.History.{History};
ghost use Rattle.history.specs.Legal.{AreReads};
ghost use Rattle.history.specs.declared.event.Op.{Op as OpOf};
ghost use Rattle.event_replay.specs.Replays.{MayFollow, IsBehind, CanGoOn, CanReplay, HasItsWords, TellsReads, AreReplayed};

use crate::reading::has_words;
use crate::writing::put_write;
use history::Op;
use std::alloc::{AllocError, Global};
use version_store::VersionStore;

/// Puts the operations of a commit, the event of this number, one after another into what is kept of all chunks: the words of each Write.
/// `false` where a Read has other words than those that were there behind the operations before it, and so may not follow; what is kept is
/// of no use then. The time is that of the operations' cells.
///
/// # Errors
/// `AllocError` where memory is wanting; what is kept is of no use then.
pub fn replay(
    alloc: Global,
    store: &mut VersionStore,
    number: u64,
    ops: &[Op],
) -> Result<bool, AllocError>
    requires { CanReplay number store.old ops.now }
    ensures reads { IfOk result (TellsReads number store.old ops.now) }
    ensures kept { IfOk result (λ right. IsTrue right → AreReplayed number store.old ops.now store.new) }
{
    for i in 0..ops.len() {
        if !replay_op(alloc, store, number, &ops[i])? {
            return Ok(false);
        }
    }
    Ok(true)
}

// One of them.
fn replay_op(
    alloc: Global,
    store: &mut VersionStore,
    number: u64,
    op: &Op,
) -> Result<bool, AllocError>
    requires { CanGoOn number store.old op.now }
    ensures reads { IfOk result (λ right. (history : History) (done : List OpOf)
        → IsBehind history number done store.old
        → MayFollow history op.now → IsTrue right ↔ HasItsWords history done op.now) }
    ensures kept { IfOk result (λ right. IsTrue right → (history : History) (done : List OpOf)
        → IsBehind history number done store.old → MayFollow history op.now
        → IsBehind history number (done ++ op.now ∷ []) store.new) }
{
    match op {
        Op::Write { view, words } => {
            put_write(alloc, store, number, view, words)?;
            Ok(true)
        }
        Op::Read { view, words } => has_words(alloc, store, view, words.items()),
    }
}
