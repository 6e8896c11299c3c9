// Arrays of a session: `{"call":"open","mount":M,"path":P,FORMAT:metadata,"open":B,"create":B}`, and a new shape of one of them,
// `{"call":"resize","array":N,"shape":[..]}`.
ghost use Rattle.std.specs.Prelude.{◌≡◌, ◌++◌, ◌∷◌, [], IfOk, OnOk};
ghost use Rattle.std.specs.FinMap as finmap;
ghost use Rattle.std.specs.List.{AllByRecursion};
ghost use mathlib.Core.List.{IsPrefix};
ghost use Rattle.history.specs.History.{History};
ghost use Rattle.history.specs.Legal.{IsLegal};
ghost use Rattle.history.specs.Refs.{IsKnownRef};
ghost use Rattle.session_runs.specs.Turns.{IsRested, HasPassed};
ghost use Rattle.state_laws.specs.Outline.{outline};
ghost use Rattle.state_resizes.specs.Conditions.{IsAsked};
ghost use Rattle.transaction_cases.specs.Mounted.{IsName};
ghost use Rattle.transaction_cases.specs.Seats.{IsSeat, IsSeatThen, TakesBoth};

use crate::seats::Seat;
use case_lines::{Fault, is_true, number, sizes, text, told_line, want};
use cells::{Name, is_shape};
use kv_face::KvStore;
use serde_json::Value;
use session_runs::{Asked, State, open_in_turn, resize_in_turn};
use stack_driver::ArrayRef;
use state_laws::{OpenError, Opened};
use state_resizes::ResizeError;
use std::alloc::Global;
use std::sync::Wait;
use turn_book::{Pass, TurnBook};

pub(crate) fn open<K: KvStore, R: Wait>(
    rt: &R,
    alloc: Global,
    v: &Value,
    book: &TurnBook<State<K>>,
    seat: &mut Seat<K>,
) -> Result<String, Fault>
    requires seat { IsSeat book.now seat.old.pass seat.old.arrays.items seat.old.txn }
    requires mounts { TakesBoth book.now.fixed.store.names }
    ensures seat { OnOk result (IsSeatThen book.now seat.old.pass seat.new.pass seat.new.arrays.items seat.new.txn) }
{
    let asked = asked(alloc, v)?;
    match open_in_turn(rt, book, &mut seat.pass, &asked) {
        Ok(opened) => opened_told(alloc, opened, &mut seat.arrays),
        Err(OpenError::Memory) => Err(Fault::Memory),
        Err(e) => told_line(alloc, &e),
    }
}

// The event of an opening, if there is one; the session has the array from now on.
pub(crate) fn opened_told(
    alloc: Global,
    opened: Opened,
    arrays: &mut Vec<ArrayRef>,
) -> Result<String, Fault>
    ensures { OnOk result (arrays.new.items ≡ arrays.old.items ++ opened.array ∷ []) }
{
    let event = opened.event;
    arrays.push(opened.array)?;
    told_line(alloc, &event)
}

fn asked(alloc: Global, v: &Value) -> Result<Asked, Fault>
    ensures mount { IfOk result (λ asked. IsName asked.mount) }
{
    let mount = mount(v)?;
    let path = text(v, "path")?;
    let want = want(alloc, v)?;
    let mount = Name::wrap(String::from_str(alloc, mount)?);
    Ok(Asked {
        mount,
        path: Name::wrap(String::from_str(alloc, path)?),
        want,
        may_open: is_true(v, "open"),
        may_create: is_true(v, "create"),
    })
}

// The name of a store, `a` where the line has none.
fn mount(v: &Value) -> Result<&'static str, Fault>
    ensures { IfOk result (λ name. IsName name.now) }
{
    if v.get("mount").is_none() {
        return Ok("a");
    }
    match text(v, "mount")? {
        "a" => Ok("a"),
        "b" => Ok("b"),
        _ => Err(Fault::Line),
    }
}

pub(crate) fn resize<K: KvStore, R: Wait>(
    rt: &R,
    alloc: Global,
    v: &Value,
    book: &TurnBook<State<K>>,
    seat: &mut Seat<K>,
) -> Result<String, Fault>
    requires seat { IsSeat book.now seat.old.pass seat.old.arrays.items seat.old.txn }
    ensures seat { OnOk result (IsSeatThen book.now seat.old.pass seat.new.pass seat.new.arrays.items seat.new.txn) }
{
    let shape = sizes(alloc, v, "shape")?;
    let array = stored(number(v, "array")?, &shape, &seat.arrays)?;
    resized(rt, alloc, book, &mut seat.pass, array, &shape)
}

// The number of the stored array at a place, where it may be asked to take the shape.
fn stored(place: u64, shape: &[u64], arrays: &[ArrayRef]) -> Result<u64, Fault>
    ensures { IfOk result (λ number. (early events : History) → AllByRecursion (IsKnownRef early) arrays.now
        → IsPrefix early events → IsLegal finmap.empty (outline events) → IsAsked events number shape.now) }
{
    if place >= arrays.len() as u64 {
        return Err(Fault::Line);
    }
    let array = &arrays[place as usize];
    if array.local || array.shape.items().len() != shape.len() || !is_shape(shape) {
        return Err(Fault::Line);
    }
    Ok(array.number)
}

fn resized<K: KvStore, R: Wait>(
    rt: &R,
    alloc: Global,
    book: &TurnBook<State<K>>,
    pass: &mut Pass<State<K>>,
    array: u64,
    shape: &[u64],
) -> Result<String, Fault>
    requires pass { IsRested book.now pass.old }
    requires asked { (events : History) → IsPrefix pass.old.seen events → IsLegal finmap.empty (outline events)
        → IsAsked events array shape.now }
    ensures { HasPassed book.now pass.old pass.new }
{
    match resize_in_turn(alloc, rt, book, pass, array, shape) {
        Ok(event) => told_line(alloc, &event),
        Err(ResizeError::Memory) => Err(Fault::Memory),
        Err(e) => told_line(alloc, &e),
    }
}
