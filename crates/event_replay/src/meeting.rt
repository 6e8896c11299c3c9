// Whether what a read asks for was there.
ghost use Rattle.std.specs.Prelude.{◌≡◌, ◌≤◌, ◌<◌, ◌↔◌, length, get_or, IfOk, IsTrue};
ghost use Rattle.event_replay.specs.declared.demand.AskedPiece.{AskedPiece as AskedOf};
ghost use Rattle.event_replay.specs.Demands.{IsDemandIn, IsPieceIn, IsMetFrom, AreMetFrom};
ghost use Rattle.history.specs.History.{History};
ghost use Rattle.version_store.specs.Stores.{IsStoreOf};

use crate::demand::{AskedPiece, Demand};
use cast_driver::Chain;
use std::alloc::{AllocError, Global};
use version_store::VersionStore;

/// Whether the cells that a read asks for were there, those of each chunk at a moment from this number of events on, up to the last event
/// of which words are kept. The time is that of `ChunkVersions::find_mark`.
///
/// # Errors
/// `AllocError` where memory is wanting.
pub fn is_met(
    alloc: Global,
    store: &VersionStore,
    demand: &Demand,
    from: u64,
) -> Result<bool, AllocError>
    requires { (history : History) × IsDemandIn history demand.now }
    ensures { IfOk result (λ met. (history : History) → IsStoreOf history store.now → IsDemandIn history demand.now
        → from ≤ length history → IsTrue met ↔ AreMetFrom history from demand.now) }
{
    let casts = demand.casts.as_slice();
    let pieces = demand.pieces.as_slice();
    for i in 0..pieces.len() {
        if !is_piece_met(alloc, store, casts, asked_at(pieces, i), from)? {
            return Ok(false);
        }
    }
    Ok(true)
}

pub(crate) fn asked_at(pieces: &[AskedPiece], at: usize) -> &AskedPiece
    requires { at < length pieces.now }
    ensures { (d : AskedOf) → result.now ≡ get_or pieces.now at d }
{
    &pieces[at]
}

fn is_piece_met(
    alloc: Global,
    store: &VersionStore,
    casts: &[Chain],
    piece: &AskedPiece,
    from: u64,
) -> Result<bool, AllocError>
    requires { (history : History) × IsPieceIn history casts.now piece.now }
    ensures { IfOk result (λ met. (history : History) → IsStoreOf history store.now
        → IsPieceIn history casts.now piece.now
        → from ≤ length history → IsTrue met ↔ IsMetFrom history from casts.now piece.now) }
{
    let mark = store.find_mark(alloc, piece.id.items(), from, casts, &piece.asked)?;
    Ok(mark.is_some())
}
