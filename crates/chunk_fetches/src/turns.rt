// Turns of a read.
ghost use Rattle.std.specs.Prelude.{◌≡◌, ℕ, List, [], Err, IfOk, OnOk, length};
ghost use Rattle.std.specs.FinMap as finmap;
ghost use mathlib.Core.List.{IsPrefix};
ghost use Rattle.history.specs.History.{History};
ghost use Rattle.history.specs.Legal.{IsLegal};
ghost use Rattle.shared_state.specs.Outline.{outline};
ghost use Rattle.chunk_fetches.specs.Looking.{AreLookedAt, AreChunks, AreFresh};
ghost use Rattle.chunk_fetches.specs.Sources.{new_pieces};
ghost use Rattle.chunk_fetches.specs.Turns.{HasTurned, HasFailedTurn};
ghost use Rattle.chunk_fetches.specs.declared.error.LookError.TheVariants as look_error;
ghost use Rattle.turn_book.specs.Passes.{IsIdle};

use crate::error::LookError;
use crate::looked::{Fresh, Looked};
use crate::looking::look_all;
use crate::settling::settle_all;
use crate::source::Source;
use kv_face::KvStore;
use shared_state::State;
use std::alloc::{AllocError, Global};
use std::sync::Wait;
use transaction_cells::Piece;
use turn_book::{Pass, TurnBook};

/// Looks in one turn at the chunks that are to be fetched, with the number of events by then.
pub(crate) fn look_in_turn<K: KvStore, R: Wait>(
    alloc: Global,
    rt: &R,
    book: &TurnBook<State<K>>,
    pass: &mut Pass<State<K>>,
    pieces: &[Piece],
    sources: &[Source],
) -> Result<(Vec<Looked>, u64), LookError>
    requires pass { IsIdle book.now pass.old }
    requires count { length sources.now ≡ length pieces.now }
    requires chunks { (events : History) → IsPrefix pass.old.seen events → IsLegal finmap.empty (outline events)
        → AreChunks events (new_pieces sources.now pieces.now) }
    ensures looked { IfOk result (λ seen_at.
        AreLookedAt book.now.fixed pass.new.seen (new_pieces sources.now pieces.now) seen_at.0.items) }
    ensures mark { IfOk result (λ seen_at. seen_at.1 ≡ length pass.new.seen) }
    ensures ok { OnOk result (HasTurned book.now pass.old pass.new []) }
    ensures failed { (event : ℕ) → result ≡ Err (look_error.StoreFailed event)
        → HasFailedTurn book.now pass.old pass.new (new_pieces sources.now pieces.now) event }
    ensures memory { result ≡ Err look_error.Memory → HasTurned book.now pass.old pass.new [] }
{
    let owner = pass.number();
    let mut held = book.take(rt, pass);
    let looks = look_all(alloc, held.state(), owner, pieces, sources);
    book.give(pass, held);
    looks
}

/// Hands what was decoded to the state, in one turn.
pub(crate) fn settle_in_turn<K: KvStore, R: Wait>(
    rt: &R,
    book: &TurnBook<State<K>>,
    pass: &mut Pass<State<K>>,
    pieces: &[Piece],
    sources: &[Source],
    fresh: &[Fresh],
) -> Result<(), AllocError>
    requires pass { IsIdle book.now pass.old }
    requires count { length sources.now ≡ length pieces.now }
    requires chunks { (events : History) → IsPrefix pass.old.seen events → IsLegal finmap.empty (outline events)
        → AreChunks events (new_pieces sources.now pieces.now) }
    requires fresh { AreFresh book.now.fixed pass.old.seen (new_pieces sources.now pieces.now) fresh.now }
    ensures { HasTurned book.now pass.old pass.new [] }
{
    let mut held = book.take(rt, pass);
    let settled = settle_all(held.state(), pieces, sources, fresh);
    book.give(pass, held);
    settled
}
