// Views with bounds taken anew.
ghost use Rattle.std.specs.Prelude.{◌≡◌, ◌≢◌, ℕ, List, [], Ok, Err, Some, None, IfOk, IfErr, IsTrue, IsFalse, length};
ghost use Rattle.sessions.specs.declared.Body.TheVariants.{Resolved};
ghost use Rattle.history.specs.Acts.{resolves, act_of};
ghost use Rattle.history.specs.Answers.{Text};
ghost use Rattle.history.specs.Bound.{AreKnownNames};
ghost use Rattle.history.specs.Commit.{Fixed};
ghost use Rattle.history.specs.Lines.{resolving};
ghost use Rattle.history.specs.Refs.{HasKnownRefs};
ghost use Rattle.history.specs.ResizeRows.{shape_after};
ghost use Rattle.history.specs.Sessions.{Names as NamesOf};
ghost use Rattle.indexmap.specs.IndexMap.{get_by_text};
ghost use Rattle.session_openings.specs.Renewing.{IsRenewed};
ghost use Rattle.sessions.specs.Turns.{IsRested, IsTurn, HasPassed, added_by};
ghost use Rattle.sessions.specs.Standing.{session_state, transaction_in, AreViews};
ghost use Rattle.sessions.specs.Told.{IsTold, IsAnswerTo, IsBoundAs, IsToldBy};
ghost use Rattle.stack_driver.specs.Conditions.{IsView};
ghost use Rattle.stack_driver.specs.References.{Reference, IsReference};
ghost use Rattle.stack_driver.specs.Renewed.{array_of, renewed, MayRenew};
ghost use Rattle.stack_driver.specs.Views.{look_of, own_transform};
ghost use Rattle.stack_driver.specs.declared.error.RenewError.TheVariants as renew_error;
ghost use Rattle.stack_driver.specs.declared.view.View.{View as ViewOf};

use cells::Name;
use kv_face::KvStore;
use sessions::{
    Around, Body, Gate, Names, State, Txn, bound_with, bounds_in_turn, named,
    transform_has_few_lists,
};
use stack_driver::{RenewError, View, array_of, dtype, renew, transform_of};
use std::alloc::{AllocError, Global};
use std::sync::Wait;
use turn_book::Pass;

/// Binds a name to its view with the bounds that the view's array has now, which one turn tells.
pub fn resolve<K: KvStore, R: Wait, G: Gate>(
    around: &Around<K, R, G>,
    pass: &mut Pass<State<K>>,
    names: &mut Names,
    txn: &Option<Txn>,
    name: &str,
) -> Body
    requires pass { IsRested around.now.book.now pass.old }
    requires views { AreViews (get_by_text names.old) }
    requires known { AreKnownNames pass.old.seen (get_by_text names.old) }
    ensures told { (line : ℕ) → IsToldBy around.now.book.now pass.old pass.new
        (session_state (get_by_text names.old) (length pass.old.seen) txn.now) line (resolving name.now)
        (get_by_text names.new) (transaction_in txn.now) result }
    ensures anywhere { (fixed : Fixed) (line : ℕ)
        → IsTold fixed pass.old.number pass.new.seen
        (session_state (get_by_text names.old) (length pass.old.seen) txn.now) line (resolving name.now)
        (get_by_text names.new) (transaction_in txn.now) result [] }
    ensures none { added_by pass.old pass.new ≡ [] }
    ensures passed { HasPassed around.now.book.now pass.old pass.new }
    ensures views { AreViews (get_by_text names.new) }
    ensures known { AreKnownNames pass.new.seen (get_by_text names.new) }
{
    match asked(around.alloc, names, txn, name) {
        Ok(view) => resolved(around, pass, names, name, view),
        Err(body) => body,
    }
}

// A copy of the view of an array that a name is bound to, or the answer to what refuses it.
fn asked(alloc: Global, names: &Names, txn: &Option<Txn>, name: &str) -> Result<View, Body>
    ensures view { IfOk result (λ v. get_by_text names.now name.now ≡ Some v) }
    ensures array { IfOk result (λ v. (r : Reference) × (array_of v ≡ Some r) × IsReference r
        × (act_of (get_by_text names.now) (transaction_in txn.now) (resolving name.now) ≡ Ok (resolves name.now v r))) }
    ensures err { IfErr result (λ b. IsAnswerTo
        (act_of (get_by_text names.now) (transaction_in txn.now) (resolving name.now)) b) }
{
    if txn.is_some() {
        return Err(Body::InTransaction);
    }
    match named(alloc, names, name) {
        Ok(view) => of_array(view),
        Err(body) => Err(body),
    }
}

// The view, where it is that of an array.
fn of_array(view: View) -> Result<View, Body>
    ensures view { IfOk result (λ v. v ≡ view) }
    ensures array { IfOk result (λ v. (r : Reference) × (array_of v ≡ Some r) × IsReference r) }
    ensures err { IfErr result (λ b. (array_of view ≡ None) × (b ≡ Body.NotArray)) }
{
    if !has_array(&view) {
        return Err(Body::NotArray);
    }
    Ok(view)
}

fn has_array(view: &View) -> bool
    ensures some { IsTrue result → (r : Reference) × (array_of view.now ≡ Some r) × IsReference r }
    ensures none { IsFalse result → array_of view.now ≡ None }
{
    match array_of(view) {
        Some(array) => {
            let _ = &array.shape;
            true
        }
        None => false,
    }
}

fn resolved<K: KvStore, R: Wait, G: Gate>(
    around: &Around<K, R, G>,
    pass: &mut Pass<State<K>>,
    names: &mut Names,
    name: &str,
    view: View,
) -> Body
    requires pass { IsRested around.now.book.now pass.old }
    requires array { (r : Reference) × (array_of view ≡ Some r) × IsReference r }
    requires view { IsView view }
    requires known { HasKnownRefs pass.old.seen view }
    ensures turn { IsTurn around.now.book.now pass.old pass.new pass.new.seen [] }
    ensures answer { (r : Reference) → array_of view ≡ Some r
        → IsRenewed (shape_after pass.new.seen r.number) name.now view (get_by_text names.old)
        (get_by_text names.new) result }
{
    match bounds_in_turn(around.rt, around.book, pass, array_number(&view)) {
        Ok(bounds) => renewed(around.alloc, names, name, view, bounds.shape.items()),
        Err(_) => Body::Memory,
    }
}

// The number of a view's array; 0 where it has none.
fn array_number(view: &View) -> u64
    ensures { (r : Reference) → array_of view.now ≡ Some r → result ≡ r.number }
{
    match array_of(view) {
        Some(array) => array.number,
        None => 0,
    }
}

// Binds the name to the view with the bounds that its array has under a shape.
fn renewed(alloc: Global, names: &mut Names, name: &str, view: View, shape: &[u64]) -> Body
    requires array { (r : Reference) × (array_of view ≡ Some r) }
    requires view { IsView view }
    requires shape { MayRenew view shape.now }
    ensures { IsRenewed shape.now name.now view (get_by_text names.old) (get_by_text names.new) result }
{
    match renew(alloc, view, shape) {
        Ok(view) => bound(alloc, names, name, view),
        Err(e) => refused(e),
    }
}

fn bound(alloc: Global, names: &mut Names, name: &str, view: View) -> Body
    ensures { IsBoundAs (Resolved name.now (look_of view).dtype (own_transform view))
        (get_by_text names.old) name.now view (get_by_text names.new) result }
{
    match resolved_body(alloc, name, &view) {
        Ok(body) => bound_with(alloc, names, name, view, body),
        Err(_) => Body::Memory,
    }
}

fn resolved_body(alloc: Global, name: &str, view: &View) -> Result<Body, AllocError>
    ensures { IfOk result (λ b. b ≡ Resolved name.now (look_of view.now).dtype (own_transform view.now)) }
{
    if !transform_has_few_lists(transform_of(view)) {
        return Err(AllocError);
    }
    let transform = transform_of(view).copy(alloc)?;
    let name = String::from_str(alloc, name)?;
    Ok(Body::Resolved {
        name: Name::wrap(name),
        dtype: dtype(view),
        transform,
    })
}

// The answer where a view of an array isn't renewed.
fn refused(e: RenewError) -> Body
    ensures { (shape : List ℕ) (view : ViewOf) (name : Text) (names : NamesOf) → (r : Reference)
        × (array_of view ≡ Some r) → (e ≢ renew_error.Memory → renewed shape view ≡ Err e)
        → IsRenewed shape name view names names result }
{
    match e {
        RenewError::Refused { cause } => Body::RefusedView { cause },
        RenewError::NotArray => Body::NotArray,
        RenewError::Memory => Body::Memory,
    }
}
