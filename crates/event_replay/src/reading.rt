// Whether a Read has the words that are there.
ghost use Rattle.std.specs.Prelude.{◌↔◌, ℕ, List, IfOk, IsTrue};
ghost use Rattle.history.specs.History.{History};
ghost use Rattle.history.specs.Writes.{Put};
ghost use Rattle.history.specs.declared.event.Op.{Op};
ghost use Rattle.history.specs.declared.event.Op.TheVariants as op;
ghost use Rattle.stack_driver.specs.declared.view.View.{View as ViewOf};
ghost use Rattle.transaction_cells.specs.Operations.{HasSites};
ghost use Rattle.transaction_cells.specs.Pieces.{AreCells};
ghost use Rattle.transaction_cells.specs.Sites.{sites_of};
ghost use Rattle.version_store.specs.Asked.{content_with};
ghost use Rattle.event_replay.specs.Pieces.{IsAskedAt, AreAskedIn};
ghost use Rattle.event_replay.specs.Placed.{AreShownIn, AreShown};
ghost use Rattle.event_replay.specs.Replays.{MayFollow, IsBehind, CanGoOn, HasWords};

use crate::locating::{chains_of, located};
use crate::pairs::{asked_cells, piece_at};
use cast_driver::Chain;
use stack_driver::View;
use std::alloc::{AllocError, Global};
use transaction_cells::{CellLeaves, Piece, ViewCells};
use version_store::VersionStore;

/// Whether the cells of a view show these words, one for each.
pub(crate) fn has_words(
    alloc: Global,
    store: &VersionStore,
    view: &View,
    words: &[u64],
) -> Result<bool, AllocError>
    requires { (number : ℕ) × CanGoOn number store.now (op.Read view.now words.now) }
    ensures { IfOk result (λ has. (history : History) (number : ℕ) (done : List Op)
        → IsBehind history number done store.now → MayFollow history (op.Read view.now words.now)
        → IsTrue has ↔ HasWords history done view.now words.now) }
{
    let cells = located(alloc, view)?;
    show_cells(alloc, store, cells, words)
}

/// Whether these cells of a view show these words, one for each.
pub(crate) fn show_cells(
    alloc: Global,
    store: &VersionStore,
    cells: ViewCells,
    words: &[u64],
) -> Result<bool, AllocError>
    requires { (history : History) × (number : ℕ) × (done : List Op) × (view : ViewOf)
        × IsBehind history number done store.now
        × MayFollow history (op.Read view words.now) × HasSites view × AreCells (sites_of view) cells }
    ensures { IfOk result (λ has. (history : History) (number : ℕ) (done : List Op) (view : ViewOf)
        → IsBehind history number done store.now → MayFollow history (op.Read view words.now) → HasSites view
        → AreCells (sites_of view) cells → IsTrue has ↔ HasWords history done view words.now) }
{
    let ViewCells {
        leaves,
        lanes,
        pieces,
    } = cells;
    let chains = chains_of(alloc, lanes)?;
    show_pieces(alloc, store, pieces.items(), &chains, &leaves, words)
}

fn show_pieces(
    alloc: Global,
    store: &VersionStore,
    pieces: &[Piece],
    casts: &[Chain],
    leaves: &CellLeaves,
    words: &[u64],
) -> Result<bool, AllocError>
    requires { (history : History) × (puts : List Put) × (v : ViewOf)
        × AreAskedIn history puts v words.now leaves.now casts.now pieces.now store.now }
    ensures { IfOk result (λ has. (history : History) (puts : List Put) (v : ViewOf)
        → AreAskedIn history puts v words.now leaves.now casts.now pieces.now store.now
        → IsTrue has ↔ AreShown (content_with history puts) (sites_of v) words.now) }
{
    for i in 0..pieces.len() {
        if !show_piece(alloc, store, piece_at(pieces, i), casts, leaves, words)? {
            return Ok(false);
        }
    }
    Ok(true)
}

fn show_piece(
    alloc: Global,
    store: &VersionStore,
    piece: &Piece,
    casts: &[Chain],
    leaves: &CellLeaves,
    words: &[u64],
) -> Result<bool, AllocError>
    requires { (history : History) × (puts : List Put) × (v : ViewOf)
        × IsAskedAt history puts v words.now leaves.now casts.now piece.now store.now }
    ensures { IfOk result (λ has. (history : History) (puts : List Put) (v : ViewOf)
        → IsAskedAt history puts v words.now leaves.now casts.now piece.now store.now
        → IsTrue has ↔ AreShownIn (content_with history puts) piece.now.id (sites_of v) words.now) }
{
    let asked = asked_cells(alloc, piece.runs.items(), leaves, words)?;
    store.shows(alloc, piece.id.items(), casts, &asked)
}
