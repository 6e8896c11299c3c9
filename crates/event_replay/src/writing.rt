// The words of a Write, put into what is kept of its chunks.
ghost use Rattle.std.specs.Prelude.{◌++◌, ◌∷◌, [], ℕ, List, OnOk};
ghost use Rattle.history.specs.History.{History};
ghost use Rattle.history.specs.Writes.{Put, puts_of_op};
ghost use Rattle.history.specs.declared.event.Op.{Op};
ghost use Rattle.history.specs.declared.event.Op.TheVariants as op;
ghost use Rattle.stack_driver.specs.declared.view.View.{View as ViewOf};
ghost use Rattle.transaction_cells.specs.Operations.{HasSites};
ghost use Rattle.transaction_cells.specs.Pieces.{AreCells};
ghost use Rattle.transaction_cells.specs.Sites.{sites_of};
ghost use Rattle.version_store.specs.Stores.{IsPartStoreOf};
ghost use Rattle.event_replay.specs.Pieces.{puts_under, IsPutAt, ArePut};
ghost use Rattle.event_replay.specs.Replays.{MayFollow, IsBehind, CanGoOn};

use crate::locating::located;
use crate::pairs::{piece_at, placed_words};
use cells::WrittenWords;
use stack_driver::View;
use std::alloc::{AllocError, Global};
use transaction_cells::{Piece, ViewCells};
use version_store::VersionStore;

/// Puts the words of a Write, one for each cell of its view.
pub(crate) fn put_write(
    alloc: Global,
    store: &mut VersionStore,
    number: u64,
    view: &View,
    words: &WrittenWords,
) -> Result<(), AllocError>
    requires { CanGoOn number store.old (op.Write view.now words.now) }
    ensures { OnOk result ((history : History) (done : List Op) → IsBehind history number done store.old
        → MayFollow history (op.Write view.now words.now)
        → IsBehind history number (done ++ op.Write view.now words.now ∷ []) store.new) }
{
    let cells = located(alloc, view)?;
    put_cells(alloc, store, number, &cells, words)
}

/// Puts the words of a Write, one for each of these cells of its view.
pub(crate) fn put_cells(
    alloc: Global,
    store: &mut VersionStore,
    number: u64,
    cells: &ViewCells,
    words: &WrittenWords,
) -> Result<(), AllocError>
    requires { (history : History) × (done : List Op) × (view : ViewOf) × IsBehind history number done store.old
        × MayFollow history (op.Write view words.now) × HasSites view × AreCells (sites_of view) cells.now }
    ensures { OnOk result ((history : History) (done : List Op) (view : ViewOf) → IsBehind history number done store.old
        → MayFollow history (op.Write view words.now) → HasSites view → AreCells (sites_of view) cells.now
        → IsBehind history number (done ++ op.Write view words.now ∷ []) store.new) }
{
    let kept = cells.back(alloc, words)?;
    put_pieces(alloc, store, number, cells.pieces.items(), &kept)
}

fn put_pieces(
    alloc: Global,
    store: &mut VersionStore,
    number: u64,
    pieces: &[Piece],
    kept: &[u64],
) -> Result<(), AllocError>
    requires { (history : History) × (puts : List Put) × (v : ViewOf) × (words : List ℕ)
        × ArePut history number puts v words kept.now pieces.now store.old }
    ensures { OnOk result ((history : History) (puts : List Put) (v : ViewOf) (words : List ℕ)
        → ArePut history number puts v words kept.now pieces.now store.old
        → IsPartStoreOf history (puts ++ puts_of_op (op.Write v words)) store.new) }
{
    for i in 0..pieces.len() {
        put_piece(alloc, store, number, piece_at(pieces, i), kept)?;
    }
    Ok(())
}

fn put_piece(
    alloc: Global,
    store: &mut VersionStore,
    number: u64,
    piece: &Piece,
    kept: &[u64],
) -> Result<(), AllocError>
    requires { (history : History) × (puts : List Put) × (v : ViewOf) × (words : List ℕ)
        × IsPutAt history number puts v words kept.now piece.now store.old }
    ensures { OnOk result ((history : History) (puts : List Put) (v : ViewOf) (words : List ℕ)
        → IsPutAt history number puts v words kept.now piece.now store.old
        → IsPartStoreOf history (puts ++ puts_under history v words piece.now.id) store.new) }
{
    let placed = placed_words(alloc, piece.runs.items(), kept)?;
    store.put_words(alloc, number, piece.id.items(), &placed)
}
