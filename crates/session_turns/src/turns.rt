// Turns of a line.
ghost use Rattle.std.specs.Prelude.{◌≡◌, ◌≤◌, ◌^◌, ℕ, List, [], Some, IfOk, OnErr, IsSome, map, max};
ghost use Rattle.std.specs.FinMap as finmap;
ghost use mathlib.Core.List.{IsPrefix};
ghost use Rattle.cells.specs.Places.{cell_count};
ghost use Rattle.history.specs.Arrays.{Known, known_after};
ghost use Rattle.history.specs.History.{History};
ghost use Rattle.history.specs.Legal.{IsLegal, IsMount};
ghost use Rattle.session_turns.specs.Asked.{asked_leaf};
ghost use Rattle.session_turns.specs.Opening.{IsLeafTurn, IsGivenTurn};
ghost use Rattle.session_turns.specs.Turns.{IsTurn, IsResizeTurn};
ghost use Rattle.state_resizes.specs.Agreement.{Opening, Agrees, TakesMount, IsState, KeepsAgreement};
ghost use Rattle.state_resizes.specs.Fetches.{bounds_in};
ghost use Rattle.state_resizes.specs.Openings.{IsOpening};
ghost use Rattle.state_resizes.specs.Outline.{outline};
ghost use Rattle.state_resizes.specs.Conditions.{IsAsked};
ghost use Rattle.turn_book.specs.Passes.{IsIdle};

use crate::asked::Asked;
use cells::Dense;
use kv_face::KvStore;
use state_resizes::{Bounds, OpenError, Opened, ResizeError, resize};
use std::alloc::{AllocError, Global};
use std::sync::Wait;
use transactions::State;
use turn_book::{Pass, TurnBook};

/// The present shape of an array, by one turn.
pub fn bounds_in_turn<K: KvStore, R: Wait>(
    rt: &R,
    book: &TurnBook<State<K>>,
    pass: &mut Pass<State<K>>,
    array: u64,
) -> Result<Bounds, AllocError>
    requires pass { IsIdle book.now pass.old }
    requires array { (events : History) → IsPrefix pass.old.seen events → IsLegal finmap.empty (outline events)
        → IsSome (known_after events array) }
    ensures turn { IsTurn book.now pass.old pass.new pass.new.seen [] }
    ensures bounds { IfOk result (λ b. (k : Known) → known_after pass.new.seen array ≡ Some k
        → b ≡ bounds_in pass.new.seen array k) }
{
    let mut held = book.take(rt, pass);
    let bounds = held.state().bounds(array);
    book.give(pass, held);
    bounds
}

/// Gives a stored array a new shape, by one turn.
pub fn resize_in_turn<K: KvStore, R: Wait>(
    alloc: Global,
    rt: &R,
    book: &TurnBook<State<K>>,
    pass: &mut Pass<State<K>>,
    array: u64,
    shape: &[u64],
) -> Result<u64, ResizeError>
    requires pass { IsIdle book.now pass.old }
    requires asked { (events : History) → IsPrefix pass.old.seen events → IsLegal finmap.empty (outline events)
        → IsAsked events array shape.now }
    ensures { IsResizeTurn book.now pass.old pass.new array shape.now result }
{
    let owner = pass.number();
    let mut held = book.take(rt, pass);
    let resized = resize(alloc, held.state(), owner, array, shape);
    book.give(pass, held);
    resized
}

/// Opens an array that is asked of a store, by one turn.
pub fn open_in_turn<K: KvStore, R: Wait>(
    rt: &R,
    book: &TurnBook<State<K>>,
    pass: &mut Pass<State<K>>,
    asked: &Asked,
) -> Result<Opened, OpenError>
    requires pass { IsIdle book.now pass.old }
    requires mount { IsMount asked.now.mount }
    requires taken { TakesMount book.now.fixed.store.names asked.now.mount }
    ensures { IsLeafTurn book.now pass.old pass.new (asked_leaf asked.now) result }
{
    let owner = pass.number();
    let mut held = book.take(rt, pass);
    let opened = open_asked(held.state(), owner, asked);
    book.give(pass, held);
    opened
}

fn open_asked<K: KvStore>(
    state: &mut State<K>,
    owner: u32,
    asked: &Asked,
) -> Result<Opened, OpenError>
    requires agrees { IsState (K.seen state.old.store) state.old.log }
    requires mount { IsMount asked.now.mount }
    requires taken { TakesMount ((K.seen state.old.store).names) asked.now.mount }
    ensures answer { (opening : Opening) → Agrees opening (K.seen state.old.store) state.old.log
        → IsOpening opening.store.contents state.old.log.events owner
        (asked_leaf asked.now) result state.new.log.events }
    ensures kept { KeepsAgreement (K.seen state.old.store) state.old.log (K.seen state.new.store) state.new.log }
{
    state.open(
        owner,
        asked.mount.items(),
        asked.path.items(),
        &asked.want,
        asked.may_open,
        asked.may_create,
    )
}

/// Opens an array with numbers of its own, by one turn.
pub fn open_given_in_turn<K: KvStore, R: Wait>(
    rt: &R,
    book: &TurnBook<State<K>>,
    pass: &mut Pass<State<K>>,
    start: Dense,
) -> Result<Opened, AllocError>
    requires pass { IsIdle book.now pass.old }
    requires small { cell_count (map (max 1) start.shape) ≤ 2 ^ 22 }
    ensures opened { IfOk result (IsGivenTurn book.now pass.old pass.new start) }
    ensures err { OnErr result (IsTurn book.now pass.old pass.new pass.new.seen []) }
{
    let owner = pass.number();
    let mut held = book.take(rt, pass);
    let opened = held.state().open_local(owner, start);
    book.give(pass, held);
    opened
}
