// Opening what a Spec asks for, leaf by leaf, each in a turn of its own.
ghost use Rattle.std.specs.Prelude.{◌≡◌, ◌≤◌, ◌^◌, ◌++◌, ◌⊎◌, ℕ, [], ◌∷◌, IfOk, IfErr, length, map, max, option_to_list, unwrap_or};
ghost use Rattle.std.specs.List.{AllByRecursion};
ghost use Rattle.sessions.specs.declared.Body.TheVariants as body;
ghost use Rattle.cells.specs.Places.{cell_count};
ghost use Rattle.history.specs.Bound.{AreKnownNames};
ghost use Rattle.history.specs.Legal.{IsMount};
ghost use Rattle.history.specs.Lines.{opening, given, stored};
ghost use Rattle.indexmap.specs.IndexMap.{get_by_text};
ghost use Rattle.sessions.specs.AnswerBodies.{body_of};
ghost use Rattle.sessions.specs.Caused.{IsCausedBy};
ghost use Rattle.sessions.specs.MeaningOpenings.{leaf_of, node_of, leaves_from, leaves_of, build_of};
ghost use Rattle.sessions.specs.OpenEvents.{AreTold};
ghost use Rattle.session_openings.specs.Opened.{IsBoundOrNot, IsBuiltBy, IsLineOpened};
ghost use Rattle.session_openings.specs.Openings.{AreAllOpened, OpensOne, IsLeafRefused, RefusesOne, HasRoom};
ghost use Rattle.session_openings.specs.Wanted.{MayBeAsked, MayOpen, wanted_leaf};
ghost use Rattle.sessions.specs.Asked.{asked_leaf};
ghost use Rattle.sessions.specs.Opening.{open_answer, IsUnseen};
ghost use Rattle.sessions.specs.Turns.{IsRested, HasPassed, added_by};
ghost use Rattle.sessions.specs.Standing.{session_state, transaction_in, AreViews};
ghost use Rattle.sessions.specs.Told.{IsToldBy};
ghost use Rattle.spec_open.specs.Built.{built};
ghost use Rattle.spec_open.specs.Conditions.{IsTree};
ghost use Rattle.sessions.specs.Agreement.{TakesMount};

use crate::building::built;
use crate::leaves::{Wanted, leaf_wanted, unopened};
use cells::Dense;
use kv_face::KvStore;
use sessions::{
    Around, Asked, Body, Gate, Names, OpenError, Opened, State, Txn, open_given_in_turn,
    open_in_turn,
};
use spec_open::{OpenPlan, SpecLeaf, Tree};
use stack_driver::ArrayRef;
use std::alloc::{AllocError, Global};
use std::sync::Wait;
use turn_book::Pass;

/// The arrays of the leaves that were opened, and the numbers of the events that were added.
#[derive(Debug, Drop)]
pub(crate) struct OpenedArrays {
    pub(crate) arrays: Vec<ArrayRef>,
    pub(crate) events: Vec<u64>,
}

/// Opens what a Spec asks for, and binds the name to its view. Each leaf takes one turn; arrays that were opened stay where a later leaf
/// is refused. A failed call of the store is always answered as one.
pub fn open<K: KvStore, R: Wait, G: Gate>(
    around: &Around<K, R, G>,
    pass: &mut Pass<State<K>>,
    names: &mut Names,
    txn: &Option<Txn>,
    name: &str,
    plan: OpenPlan,
) -> Body
    requires pass { IsRested around.now.book.now pass.old }
    requires plan { MayOpen around.now.book.now.fixed.store.names plan }
    requires views { AreViews (get_by_text names.old) }
    requires known { AreKnownNames pass.old.seen (get_by_text names.old) }
    ensures told { (line : ℕ) → IsToldBy around.now.book.now pass.old pass.new
        (session_state (get_by_text names.old) (length pass.old.seen) txn.now) line
        (opening name.now (leaves_of plan) (build_of plan)) (get_by_text names.new) (transaction_in txn.now) result }
    ensures caused { (line : ℕ) → IsCausedBy around.now.book.now pass.old pass.new
        (session_state (get_by_text names.old) (length pass.old.seen) txn.now) line
        (opening name.now (leaves_of plan) (build_of plan)) (get_by_text names.new) (transaction_in txn.now) result }
    ensures events { AreTold (added_by pass.old pass.new) result }
    ensures bound { IsBoundOrNot pass.old pass.new plan name.now (get_by_text names.old)
        (get_by_text names.new) result }
    ensures passed { HasPassed around.now.book.now pass.old pass.new }
    ensures views { AreViews (get_by_text names.new) }
    ensures known { AreKnownNames pass.new.seen (get_by_text names.new) }
{
    if txn.is_some() {
        return Body::InTransaction;
    }
    open_plan(around, pass, names, name, plan)
}

fn open_plan<K: KvStore, R: Wait, G: Gate>(
    around: &Around<K, R, G>,
    pass: &mut Pass<State<K>>,
    names: &mut Names,
    name: &str,
    plan: OpenPlan,
) -> Body
    requires pass { IsRested around.now.book.now pass.old }
    requires plan { MayOpen around.now.book.now.fixed.store.names plan }
    ensures { IsLineOpened around.now.book.now pass.old pass.new (get_by_text names.old)
        (get_by_text names.new) name.now plan result }
{
    let OpenPlan { leaves, tree } = plan;
    match open_all(around, pass, &tree, leaves.into_inner()) {
        Ok(opened) => bound(around.alloc, names, name, &tree, opened),
        Err(body) => body,
    }
}

fn bound(alloc: Global, names: &mut Names, name: &str, tree: &Tree, opened: OpenedArrays) -> Body
    requires { IsTree (length opened.arrays.items) tree.now }
    ensures { IsBuiltBy (built opened.arrays.items tree.now) opened.events.items name.now (get_by_text names.old)
        (get_by_text names.new) result }
{
    let OpenedArrays { arrays, events } = opened;
    built(alloc, names, name, tree, &arrays, events)
}

// Opens all leaves of a tree, or answers why one isn't opened.
fn open_all<K: KvStore, R: Wait, G: Gate>(
    around: &Around<K, R, G>,
    pass: &mut Pass<State<K>>,
    tree: &Tree,
    leaves: Vec<SpecLeaf>,
) -> Result<OpenedArrays, Body>
    requires pass { IsRested around.now.book.now pass.old }
    requires leaves { AllByRecursion (MayBeAsked around.now.book.now.fixed.store.names)
        (leaves_from tree.now 0 leaves.items) }
    ensures ok { IfOk result (λ o. AreAllOpened around.now.book.now pass.old pass.new
        (leaves_from tree.now 0 leaves.items) [] o.arrays.items o.events.items) }
    ensures err { IfErr result (λ b. IsLeafRefused around.now.book.now pass.old pass.new
        (leaves_from tree.now 0 leaves.items) b) }
{
    let mut opened = none_opened(around.alloc);
    for leaf in leaves {
        match open_leaf(around, pass, tree, leaf, opened) {
            Ok(more) => opened = more,
            Err(body) => return Err(body),
        }
    }
    Ok(opened)
}

fn none_opened(alloc: Global) -> OpenedArrays
    ensures { (result.arrays.items ≡ []) × (result.events.items ≡ []) }
{
    OpenedArrays {
        arrays: Vec::new(alloc),
        events: Vec::new(alloc),
    }
}

// Opens one leaf more. Room for its array and its event's number is made before its turn.
fn open_leaf<K: KvStore, R: Wait, G: Gate>(
    around: &Around<K, R, G>,
    pass: &mut Pass<State<K>>,
    tree: &Tree,
    leaf: SpecLeaf,
    opened: OpenedArrays,
) -> Result<OpenedArrays, Body>
    requires pass { IsRested around.now.book.now pass.old }
    requires leaf { MayBeAsked around.now.book.now.fixed.store.names
        (leaf_of (unwrap_or (node_of (length opened.arrays.items) tree.now) []) leaf) }
    ensures ok { IfOk result (λ o. OpensOne around.now.book.now pass.old pass.new
        (leaf_of
        (unwrap_or
        (node_of
        (length opened.arrays.items) tree.now) []) leaf) opened.arrays.items opened.events.items o.arrays.items
        o.events.items) }
    ensures err { IfErr result (λ b. RefusesOne around.now.book.now pass.old pass.new
        (leaf_of
        (unwrap_or
        (node_of (length opened.arrays.items) tree.now) []) leaf) opened.arrays.items opened.events.items b) }
{
    match with_room(opened) {
        Ok(opened) => open_wanted(around, pass, tree, leaf_wanted(leaf), opened),
        Err(_) => Err(Body::Memory),
    }
}

fn open_wanted<K: KvStore, R: Wait, G: Gate>(
    around: &Around<K, R, G>,
    pass: &mut Pass<State<K>>,
    tree: &Tree,
    wanted: Wanted,
    opened: OpenedArrays,
) -> Result<OpenedArrays, Body>
    requires pass { IsRested around.now.book.now pass.old }
    requires leaf { MayBeAsked around.now.book.now.fixed.store.names
        (wanted_leaf (unwrap_or (node_of (length opened.arrays.items) tree.now) []) wanted) }
    requires room { HasRoom opened }
    ensures ok { IfOk result (λ o. OpensOne around.now.book.now pass.old pass.new
        (wanted_leaf
        (unwrap_or
        (node_of
        (length opened.arrays.items) tree.now) []) wanted) opened.arrays.items opened.events.items o.arrays.items
        o.events.items) }
    ensures err { IfErr result (λ b. RefusesOne around.now.book.now pass.old pass.new
        (wanted_leaf
        (unwrap_or
        (node_of (length opened.arrays.items) tree.now) []) wanted) opened.arrays.items opened.events.items b) }
{
    match wanted {
        Wanted::Stored { asked } => open_stored(around, pass, tree, &asked, opened),
        Wanted::Given { start } => open_given(around, pass, start, opened),
    }
}

fn open_stored<K: KvStore, R: Wait, G: Gate>(
    around: &Around<K, R, G>,
    pass: &mut Pass<State<K>>,
    tree: &Tree,
    asked: &Asked,
    opened: OpenedArrays,
) -> Result<OpenedArrays, Body>
    requires pass { IsRested around.now.book.now pass.old }
    requires mount { IsMount asked.now.mount }
    requires taken { TakesMount around.now.book.now.fixed.store.names asked.now.mount }
    requires room { HasRoom opened }
    ensures ok { IfOk result (λ o. OpensOne around.now.book.now pass.old pass.new
        (stored (unwrap_or (node_of (length opened.arrays.items) tree.now) [])
        (asked_leaf asked.now)) opened.arrays.items opened.events.items o.arrays.items o.events.items) }
    ensures err { IfErr result (λ b. RefusesOne around.now.book.now pass.old pass.new
        (stored (unwrap_or (node_of (length opened.arrays.items) tree.now) [])
        (asked_leaf asked.now)) opened.arrays.items opened.events.items b) }
{
    match open_in_turn(around.rt, around.book, pass, asked) {
        Ok(found) => Ok(with_array(opened, found)),
        Err(e) => Err(refused(around.alloc, tree, asked, e, opened)),
    }
}

fn refused(alloc: Global, tree: &Tree, asked: &Asked, e: OpenError, opened: OpenedArrays) -> Body
    ensures { ((result ≡ body.Memory) × IsUnseen e)
        ⊎ (result ≡ body_of (open_answer (unwrap_or (node_of (length opened.arrays.items) tree.now) [])
        (asked_leaf asked.now) opened.events.items e)) }
{
    let OpenedArrays { arrays, events } = opened;
    unopened(alloc, tree, arrays.as_slice().len(), asked, e, events)
}

fn open_given<K: KvStore, R: Wait, G: Gate>(
    around: &Around<K, R, G>,
    pass: &mut Pass<State<K>>,
    start: Dense,
    opened: OpenedArrays,
) -> Result<OpenedArrays, Body>
    requires pass { IsRested around.now.book.now pass.old }
    requires small { cell_count (map (max 1) start.shape) ≤ 2 ^ 22 }
    requires room { HasRoom opened }
    ensures ok { IfOk result (λ o. OpensOne around.now.book.now pass.old pass.new
        (given start) opened.arrays.items opened.events.items o.arrays.items o.events.items) }
    ensures err { IfErr result (λ b. RefusesOne around.now.book.now pass.old pass.new
        (given start) opened.arrays.items opened.events.items b) }
{
    match open_given_in_turn(around.rt, around.book, pass, start) {
        Ok(found) => Ok(with_array(opened, found)),
        Err(_) => Err(Body::Memory),
    }
}

// Makes room for an array and a number more.
fn with_room(mut opened: OpenedArrays) -> Result<OpenedArrays, AllocError>
    ensures arrays { IfOk result (λ o. o.arrays.items ≡ opened.arrays.items) }
    ensures events { IfOk result (λ o. o.events.items ≡ opened.events.items) }
    ensures room { IfOk result HasRoom }
{
    opened.arrays.reserve(1)?;
    opened.events.reserve(1)?;
    Ok(opened)
}

// Puts an array in its room, and the number of its event, where there is one.
fn with_array(mut opened: OpenedArrays, found: Opened) -> OpenedArrays
    requires { HasRoom opened }
    ensures arrays { result.arrays.items ≡ opened.arrays.items ++ found.array ∷ [] }
    ensures events { result.events.items ≡ opened.events.items ++ option_to_list found.event }
{
    let Opened { array, event } = found;
    opened.arrays.push_reserved(array);
    if let Some(event) = event {
        opened.events.push_reserved(event);
    }
    opened
}
