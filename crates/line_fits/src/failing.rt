// Failed store calls of what changes stored arrays.
ghost use Rattle.std.specs.Prelude.{◌≡◌, ◌<◌, ◌↔◌, ℕ, List as ListOf, get_or, length, false, IfOk, OnOk, IsTrue};
ghost use Rattle.std.specs.List.{AllByRecursion};
ghost use Rattle.event_replay.specs.Pieces.{CanLocate};
ghost use Rattle.event_replay.specs.Sweeps.{IsFront, IsOpIn, IsViewIn};
ghost use Rattle.history.specs.Commit.{Transaction};
ghost use Rattle.history.specs.CommitRows.{IsChangedOn};
ghost use Rattle.history.specs.History.{History};
ghost use Rattle.history.specs.Steps.{write_alone};
ghost use Rattle.history.specs.Writes.{puts_of, puts_of_op};
ghost use Rattle.history.specs.declared.event.Op.TheVariants.{Write};
ghost use Rattle.line_fits.specs.StoredPuts.{AreStored, HasStoredPiece, IsStoredAt, PutsStored};
ghost use Rattle.stack_driver.specs.Views.{targets_of};
ghost use Rattle.event_replay.specs.Operations.{HasSites};
ghost use Rattle.event_replay.specs.CellPieces.{AreCells};
ghost use Rattle.event_replay.specs.Sites.{sites_of};
ghost use Rattle.event_replay.specs.declared.Piece.{Piece as PieceOf};
ghost use Rattle.transcript_cut.specs.Transcript.{mount};

use event_replay::{Piece, ViewCells, locate};
use history::Op;
use stack_driver::View;
use stack_targets::TargetsError;
use std::alloc::{AllocError, Global};

/// Whether a store call may fail of a write outside of a transaction: a cell of its view lies in one of the first so many arrays, which
/// lies on the mount. `stored` says of each array whether it does. The time is that of the view's cells.
///
/// # Errors
/// `AllocError` where memory is wanting.
pub fn write_may_fail(
    alloc: Global,
    opened: u64,
    stored: &[bool],
    view: &View,
) -> Result<bool, AllocError>
    requires { (events : History) × (before : History) × IsFront events before opened × IsViewIn events view.now }
    ensures { IfOk result (λ may. (events : History) (before : History) (line : ℕ) (words : ListOf ℕ)
        → IsFront events before opened → AreStored events stored.now → IsViewIn events view.now
        → length words ≡ length (targets_of view.now)
        → IsTrue may ↔ IsChangedOn before (write_alone line view.now words) mount) }
{
    puts_stored(alloc, opened, stored, view)
}

/// The same of a commit of these operations.
///
/// # Errors
/// `AllocError` where memory is wanting.
pub fn commit_may_fail(
    alloc: Global,
    opened: u64,
    stored: &[bool],
    ops: &[Op],
) -> Result<bool, AllocError>
    requires { (events : History) × (before : History) × IsFront events before opened
        × AllByRecursion (IsOpIn events) ops.now }
    ensures { IfOk result (λ may. (events : History) (before : History) (t : Transaction) → IsFront events before opened
        → AreStored events stored.now → AllByRecursion (IsOpIn events) ops.now → t.ops ≡ ops.now
        → IsTrue may ↔ IsChangedOn before t mount) }
{
    ops_put_stored(alloc, opened, stored, ops)
}

fn ops_put_stored(
    alloc: Global,
    opened: u64,
    stored: &[bool],
    ops: &[Op],
) -> Result<bool, AllocError>
    requires { (events : History) × (before : History) × IsFront events before opened
        × AllByRecursion (IsOpIn events) ops.now }
    ensures { IfOk result (λ may. (events : History) (before : History) → IsFront events before opened
        → AreStored events stored.now → AllByRecursion (IsOpIn events) ops.now
        → IsTrue may ↔ PutsStored before (puts_of ops.now)) }
{
    for i in 0..ops.len() {
        if op_puts_stored(alloc, opened, stored, &ops[i])? {
            return Ok(true);
        }
    }
    Ok(false)
}

fn op_puts_stored(alloc: Global, opened: u64, stored: &[bool], op: &Op) -> Result<bool, AllocError>
    requires { (events : History) × (before : History) × IsFront events before opened × IsOpIn events op.now }
    ensures { IfOk result (λ may. (events : History) (before : History) → IsFront events before opened
        → AreStored events stored.now → IsOpIn events op.now
        → IsTrue may ↔ PutsStored before (puts_of_op op.now)) }
{
    match op {
        Op::Write { view, words: _ } => puts_stored(alloc, opened, stored, view),
        Op::Read { view: _, words: _ } => Ok(false),
    }
}

fn puts_stored(alloc: Global, opened: u64, stored: &[bool], view: &View) -> Result<bool, AllocError>
    requires { (events : History) × (before : History) × IsFront events before opened × IsViewIn events view.now }
    ensures { IfOk result (λ may. (events : History) (before : History) (words : ListOf ℕ)
        → IsFront events before opened → AreStored events stored.now → IsViewIn events view.now
        → length words ≡ length (targets_of view.now)
        → IsTrue may ↔ PutsStored before (puts_of_op (Write view.now words))) }
{
    let cells = located(alloc, view)?;
    Ok(has_stored_piece(cells.pieces.items(), opened, stored))
}

fn located(alloc: Global, view: &View) -> Result<ViewCells, AllocError>
    requires { CanLocate view.now }
    ensures cells { IfOk result (λ cells. AreCells (sites_of view.now) cells) }
    ensures sites { OnOk result (HasSites view.now) }
{
    match locate(alloc, view) {
        Ok(cells) => Ok(cells),
        Err(TargetsError::Memory) => Err(AllocError),
        Err(_) => unreachable!(),
    }
}

fn has_stored_piece(pieces: &[Piece], opened: u64, stored: &[bool]) -> bool
    ensures { IsTrue result ↔ HasStoredPiece opened stored.now pieces.now }
{
    for i in 0..pieces.len() {
        let array = array_of(piece_at(pieces, i).id.items());
        if is_stored(array, opened, stored) {
            return true;
        }
    }
    false
}

fn piece_at(pieces: &[Piece], i: usize) -> &Piece
    requires { i < length pieces.now }
    ensures { (d : PieceOf) → result.now ≡ get_or pieces.now i d }
{
    &pieces[i]
}

// The number of the array that an id begins with.
fn array_of(id: &[u64]) -> u64
    ensures { result ≡ get_or id.now 0 0 }
{
    if id.is_empty() { 0 } else { id[0] }
}

fn is_stored(array: u64, opened: u64, stored: &[bool]) -> bool
    ensures { IsTrue result ↔ IsStoredAt opened stored.now array }
{
    if array >= opened {
        return false;
    }
    flag_at(stored, array)
}

fn flag_at(stored: &[bool], array: u64) -> bool
    ensures { result ≡ get_or stored.now array false }
{
    if array < stored.len() as u64 {
        stored[array as usize]
    } else {
        false
    }
}
