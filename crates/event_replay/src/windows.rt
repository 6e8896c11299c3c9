// Whether what reads ask for was there, once their windows end.
ghost use Rattle.std.specs.Prelude.{◌≡◌, ◌≤◌, ◌<◌, ◌↔◌, ℕ, length, get_or, IfOk, IsTrue};
ghost use Rattle.std.specs.List.{AllByRecursion};
ghost use Rattle.event_replay.specs.declared.demand.AskedPiece.{AskedPiece as AskedOf};
ghost use Rattle.event_replay.specs.Demands.{IsDemandIn};
ghost use Rattle.event_replay.specs.Links.{AreEnds};
ghost use Rattle.event_replay.specs.Sweeps.{IsWaitingIn, IsMetIn, AreMetAt, IsFront};
ghost use Rattle.history.specs.History.{History};
ghost use Rattle.version_store.specs.Stores.{IsStoreOf};

use crate::demand::AskedPiece;
use crate::following::array_of;
use crate::meeting::{asked_at, is_met};
use crate::waiting::{Waiting, waiting_at};
use std::alloc::{AllocError, Global};
use version_store::VersionStore;

/// Whether what the reads ask for was there whose windows end at this number of events, of which this is kept, and which opened so many
/// arrays; `false` where `so_far` is. The time is that of `is_met` for each.
///
/// # Errors
/// `AllocError` where memory is wanting.
pub(crate) fn are_met(
    alloc: Global,
    store: &VersionStore,
    opened: u64,
    waiting: &[Waiting],
    last: &[usize],
    earlier: &[usize],
    number: usize,
    so_far: bool,
) -> Result<bool, AllocError>
    requires ends { (most : ℕ) × AreEnds waiting.now most last.now earlier.now × (number ≤ most) }
    requires waiting { (events : History) × AllByRecursion (IsWaitingIn events) waiting.now }
    ensures { IfOk result (λ met. (events : History) (before : History) → IsFront events before opened
        → IsStoreOf before store.now
        → length before ≡ number → AllByRecursion (IsWaitingIn events) waiting.now
        → IsTrue met ↔ (IsTrue so_far × AreMetAt events waiting.now number)) }
{
    if !so_far {
        return Ok(false);
    }
    let mut link = last[number];
    'links: while link > 0 {
        if !meets(alloc, store, opened, waiting_at(waiting, link - 1))? {
            return Ok(false);
        }
        link = earlier[link - 1];
    }
    Ok(true)
}

// Whether what a read asks for was there, at the end of its window.
fn meets(
    alloc: Global,
    store: &VersionStore,
    opened: u64,
    waiting: &Waiting,
) -> Result<bool, AllocError>
    requires { (events : History) × IsDemandIn events waiting.now.demand }
    ensures { IfOk result (λ met. (events : History) (before : History) → IsFront events before opened
        → IsStoreOf before store.now
        → length before ≡ waiting.now.upto → IsDemandIn events waiting.now.demand
        → IsTrue met ↔ IsMetIn events waiting.now) }
{
    let (from, upto) = (waiting.from, waiting.upto);
    if upto < from {
        return Ok(false);
    }
    if !are_asked_of_arrays(&waiting.demand.pieces, opened) {
        return Ok(false);
    }
    is_met(alloc, store, &waiting.demand, from)
}

// Whether the chunks of all pieces are of arrays with numbers below this one.
fn are_asked_of_arrays(pieces: &[AskedPiece], opened: u64) -> bool
    ensures { IsTrue result ↔ AllByRecursion (λ (p : AskedOf). get_or p.id 0 0 < opened) pieces.now }
{
    for i in 0..pieces.len() {
        let array = array_of(asked_at(pieces, i).id.items());
        if array >= opened {
            return false;
        }
    }
    true
}
