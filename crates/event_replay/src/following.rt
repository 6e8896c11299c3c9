// Whether a commit may follow.
ghost use Rattle.std.specs.Prelude.{◌≡◌, ◌<◌, ◌↔◌, ◌∷◌, ◌++◌, [], ℕ, List, get_or, IfOk, IsTrue};
ghost use Rattle.std.specs.FinMap as finmap;
ghost use Rattle.std.specs.List.{AllByRecursion};
ghost use Rattle.history.specs.History.{History};
ghost use Rattle.history.specs.Legal.{IsLegalDone};
ghost use Rattle.history.specs.declared.event.Op.{Op as OpOf};
ghost use Rattle.history.specs.declared.event.Op.TheVariants as op;
ghost use Rattle.stack_driver.specs.declared.view.View.{View as ViewOf};
ghost use Rattle.transaction_cells.specs.Operations.{HasSites};
ghost use Rattle.transaction_cells.specs.Pieces.{AreCells};
ghost use Rattle.transaction_cells.specs.Sites.{sites_of};
ghost use Rattle.transaction_cells.specs.declared.view_cells.Piece.{Piece as PieceOf};
ghost use Rattle.event_replay.specs.Replays.{IsBehind};
ghost use Rattle.event_replay.specs.Sweeps.{IsViewIn, IsFront, IsNextDone, IsNextOp, IsRightOp, HasCells};

use crate::locating::located;
use crate::pairs::piece_at;
use crate::reading::show_cells;
use crate::writing::put_cells;
use cells::WrittenWords;
use history::Op;
use stack_driver::View;
use std::alloc::{AllocError, Global};
use transaction_cells::{Piece, ViewCells};
use version_store::VersionStore;

/// Puts the operations of a commit, the event of this number, into what is kept of all chunks, where the commit may follow the events
/// before it, which opened so many arrays: each cell lies in one of these, and each Read has the words that were there. `false` where it may
/// not; what is kept is of no use then. The time is that of the operations' cells.
///
/// # Errors
/// `AllocError` where memory is wanting; what is kept is of no use then.
pub(crate) fn commit(
    alloc: Global,
    store: &mut VersionStore,
    opened: u64,
    number: u64,
    ops: &[Op],
) -> Result<bool, AllocError>
    requires { (events : History) × (before : History) × IsNextDone events before opened number ops.now store.old }
    ensures legal { IfOk result (λ may. (events : History) (before : History)
        → IsNextDone events before opened number ops.now store.old
        → IsTrue may ↔ IsLegalDone finmap.empty before ops.now) }
    ensures kept { IfOk result (λ may. IsTrue may → (events : History) (before : History)
        → IsNextDone events before opened number ops.now store.old → IsBehind before number ops.now store.new) }
{
    for i in 0..ops.len() {
        if !follow(alloc, store, opened, number, &ops[i])? {
            return Ok(false);
        }
    }
    Ok(true)
}

// The same of one operation, behind those before it.
fn follow(
    alloc: Global,
    store: &mut VersionStore,
    opened: u64,
    number: u64,
    op: &Op,
) -> Result<bool, AllocError>
    requires { (events : History) × (before : History) × (done : List OpOf)
        × IsNextOp events before opened number done op.now store.old }
    ensures legal { IfOk result (λ may. (events : History) (before : History) (done : List OpOf)
        → IsNextOp events before opened number done op.now store.old → IsTrue may ↔ IsRightOp before done op.now) }
    ensures kept { IfOk result (λ may. IsTrue may → (events : History) (before : History) (done : List OpOf)
        → IsNextOp events before opened number done op.now store.old
        → IsBehind before number (done ++ op.now ∷ []) store.new) }
{
    match op {
        Op::Write { view, words } => follow_write(alloc, store, opened, number, view, words),
        Op::Read { view, words } => follow_read(alloc, store, opened, view, words.items()),
    }
}

fn follow_write(
    alloc: Global,
    store: &mut VersionStore,
    opened: u64,
    number: u64,
    view: &View,
    words: &WrittenWords,
) -> Result<bool, AllocError>
    requires { (events : History) × (before : History) × (done : List OpOf)
        × IsNextOp events before opened number done (op.Write view.now words.now) store.old }
    ensures legal { IfOk result (λ may. (events : History) (before : History) (done : List OpOf)
        → IsNextOp events before opened number done (op.Write view.now words.now) store.old
        → IsTrue may ↔ IsRightOp before done (op.Write view.now words.now)) }
    ensures kept { IfOk result (λ may. IsTrue may → (events : History) (before : History) (done : List OpOf)
        → IsNextOp events before opened number done (op.Write view.now words.now) store.old
        → IsBehind before number (done ++ op.Write view.now words.now ∷ []) store.new) }
{
    let cells = located(alloc, view)?;
    if !are_there(&cells, opened, words.len()) {
        return Ok(false);
    }
    match put_cells(alloc, store, number, &cells, words) {
        Ok(()) => Ok(true),
        Err(e) => Err(e),
    }
}

fn follow_read(
    alloc: Global,
    store: &VersionStore,
    opened: u64,
    view: &View,
    words: &[u64],
) -> Result<bool, AllocError>
    requires { (events : History) × (before : History) × (number : ℕ) × (done : List OpOf)
        × IsNextOp events before opened number done (op.Read view.now words.now) store.now }
    ensures { IfOk result (λ may. (events : History) (before : History) (number : ℕ) (done : List OpOf)
        → IsNextOp events before opened number done (op.Read view.now words.now) store.now
        → IsTrue may ↔ IsRightOp before done (op.Read view.now words.now)) }
{
    let cells = located(alloc, view)?;
    if !are_there(&cells, opened, words.len()) {
        return Ok(false);
    }
    show_cells(alloc, store, cells, words)
}

// Whether there are so many cells, each in one of the arrays that were opened. An array in which no cell lies doesn't count.
fn are_there(cells: &ViewCells, opened: u64, words: usize) -> bool
    ensures { (events : History) (before : History) (v : ViewOf) → IsFront events before opened → IsViewIn events v
        → HasSites v
        → AreCells (sites_of v) cells.now → IsTrue result ↔ HasCells before v words }
{
    let count = cells.leaves.len();
    if count != words {
        return false;
    }
    are_of_arrays(cells.pieces.items(), opened)
}

// Whether the chunks of all pieces are of arrays with numbers below this one.
fn are_of_arrays(pieces: &[Piece], opened: u64) -> bool
    ensures { IsTrue result ↔ AllByRecursion (λ (p : PieceOf). get_or p.id 0 0 < opened) pieces.now }
{
    for i in 0..pieces.len() {
        let array = array_of(piece_at(pieces, i).id.items());
        if array >= opened {
            return false;
        }
    }
    true
}

/// The number of the array that an id begins with.
pub(crate) fn array_of(id: &[u64]) -> u64
    ensures { result ≡ get_or id.now 0 0 }
{
    if id.is_empty() { 0 } else { id[0] }
}
