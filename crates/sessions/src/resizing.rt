// New shapes of stored arrays.
ghost use Rattle.std.specs.Prelude.{◌≡◌, ℕ, false, Ok, Err, Some, IfOk, IfErr, length};
ghost use Rattle.std.specs.FinMap as finmap;
ghost use mathlib.Core.List.{IsPrefix};
ghost use Rattle.cells.specs.Shapes.{IsShape};
ghost use Rattle.history.specs.Acts.{resizes, on_leaf, on_stored, act_of};
ghost use Rattle.history.specs.Bound.{AreKnownNames};
ghost use Rattle.history.specs.History.{History};
ghost use Rattle.history.specs.Legal.{IsLegal};
ghost use Rattle.history.specs.Lines.{resizing};
ghost use Rattle.indexmap.specs.IndexMap.{get_by_text};
ghost use Rattle.session_turns.specs.Bodies.{body_of};
ghost use Rattle.sessions.specs.Bodies.{resized_answer};
ghost use Rattle.session_turns.specs.Standing.{session_state, transaction_in};
ghost use Rattle.session_turns.specs.Told.{IsAnswerTo, IsToldBy};
ghost use Rattle.session_turns.specs.Failures.{TellsFailures};
ghost use Rattle.session_turns.specs.Turns.{IsRested, HasPassed, added_by};
ghost use Rattle.sessions.specs.Caused.{IsCausedBy};
ghost use Rattle.stack_driver.specs.References.{Reference};
ghost use Rattle.stack_driver.specs.Renewed.{array_of};
ghost use Rattle.session_turns.specs.Outline.{outline};
ghost use Rattle.session_turns.specs.ResizeConditions.{IsAsked};

use cells::List;
use kv_face::KvStore;
use session_turns::{
    Around, Body, Gate, Names, ResizeError, State, Txn, damaged, resize_in_turn, unknown,
};
use stack_driver::{View, array_of};
use std::alloc::Global;
use std::sync::Wait;
use transform_composition::ComposeError;
use turn_book::Pass;

/// Gives the stored array of a view another shape, by one turn.
pub fn resize<K: KvStore, R: Wait, G: Gate>(
    around: &Around<K, R, G>,
    pass: &mut Pass<State<K>>,
    names: &Names,
    txn: &Option<Txn>,
    name: &str,
    shape: &[u64],
) -> Body
    requires pass { IsRested around.now.book.now pass.old }
    requires known { AreKnownNames pass.old.seen (get_by_text names.now) }
    requires sizes { IsShape shape.now }
    ensures told { (line : ℕ) → IsToldBy around.now.book.now pass.old pass.new
        (session_state (get_by_text names.now) (length pass.old.seen) txn.now) line (resizing name.now shape.now)
        (get_by_text names.now) (transaction_in txn.now) result }
    ensures caused { (line : ℕ) → IsCausedBy around.now.book.now pass.old pass.new
        (session_state (get_by_text names.now) (length pass.old.seen) txn.now) line (resizing name.now shape.now)
        (get_by_text names.now) (transaction_in txn.now) result }
    ensures failures { TellsFailures (added_by pass.old pass.new) result }
    ensures passed { HasPassed around.now.book.now pass.old pass.new }
{
    match array_asked(around.alloc, names, txn, name, shape) {
        Ok(array) => resized_body(
            around.alloc,
            resize_in_turn(around.alloc, around.rt, around.book, pass, array, shape),
        ),
        Err(body) => body,
    }
}

// The number of the array that is to have a shape, or the answer to what refuses it.
fn array_asked(
    alloc: Global,
    names: &Names,
    txn: &Option<Txn>,
    name: &str,
    shape: &[u64],
) -> Result<u64, Body>
    requires sizes { IsShape shape.now }
    ensures array { IfOk result (λ n. (r : Reference) × (r.number ≡ n)
        × (act_of (get_by_text names.now) (transaction_in txn.now) (resizing name.now shape.now)
        ≡ Ok (resizes r shape.now))) }
    ensures asked { IfOk result (λ n. (early events : History) → AreKnownNames early (get_by_text names.now)
        → IsPrefix early events → IsLegal finmap.empty (outline events) → IsAsked events n shape.now) }
    ensures err { IfErr result (λ b. IsAnswerTo
        (act_of (get_by_text names.now) (transaction_in txn.now) (resizing name.now shape.now)) b) }
{
    if txn.is_some() {
        return Err(Body::InTransaction);
    }
    match names.get(name) {
        Some(view) => stored_array(view, shape),
        None => Err(unknown(alloc, name)),
    }
}

fn stored_array(view: &View, shape: &[u64]) -> Result<u64, Body>
    ensures array { IfOk result (λ n. (r : Reference) × (array_of view.now ≡ Some r) × (r.number ≡ n)
        × (r.local ≡ false) × (length shape.now ≡ length r.shape)) }
    ensures err { IfErr result (λ b. IsAnswerTo (on_leaf (array_of view.now) (λ r. on_stored r shape.now)) b) }
{
    let Some(array) = array_of(view) else {
        return Err(Body::NotArray);
    };
    if array.local {
        return Err(Body::NotArray);
    }
    if array.shape.items().len() != shape.len() {
        return Err(Body::RefusedView {
            cause: ComposeError::Rank,
        });
    }
    Ok(array.number)
}

// The answer to a resize.
fn resized_body(alloc: Global, resized: Result<u64, ResizeError>) -> Body
    ensures { result ≡ body_of (resized_answer resized) }
{
    match resized {
        Ok(event) => Body::Resized { event },
        Err(e) => unresized_body(alloc, e),
    }
}

fn unresized_body(alloc: Global, e: ResizeError) -> Body
    ensures { result ≡ body_of (resized_answer (Err e)) }
{
    match e {
        ResizeError::TooManyChunks { at } => Body::TooManyChunks { at },
        ResizeError::NotAtomic { keys } => Body::NotAtomic { keys },
        ResizeError::Damaged { key, cause } => damaged(key, cause),
        ResizeError::StoreFailed { event } => Body::StoreFailed {
            event,
            done: List::wrap(Vec::new(alloc)),
            events: None,
        },
        ResizeError::Memory => Body::Memory,
    }
}
