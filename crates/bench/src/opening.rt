// The array, and the view of its one cell.
ghost use Rattle.std.specs.Prelude.{◌≡◌, IfOk, OnOk, codes};
ghost use Rattle.history.specs.History.{History};
ghost use Rattle.history.specs.Refs.{HasKnownRefs, IsKnownRef};
ghost use Rattle.session_turns.specs.Turns.{IsRested, HasPassed};
ghost use Rattle.stack_driver.specs.Conditions.{IsView};
ghost use Rattle.state_laws.specs.Agreement.{TakesMount};

use crate::fault::Fault;
use cells::Name;
use chunk_forms::Want;
use index_transform::Transform;
use json_forms::parse;
use kv_face::KvStore;
use serde_json::Value;
use session_turns::{Asked, State, open_in_turn};
use stack_driver::{ArrayRef, View};
use std::alloc::Global;
use std::sync::Wait;
use transform_json::read_transform;
use turn_book::{Pass, TurnBook};
use want_forms::zarr_want;
use zarr_chunks::ZarrWant;

// 4,096 cells in chunks of 64.
const METADATA: &str = "{\"shape\":[4096],\"chunks\":[64],\"dtype\":\"<i4\"}";

// The cell at 100.
const TRANSFORM: &str = "{\"input_rank\":0,\"output\":[{\"offset\":100}]}";

/// Makes the array, by one turn, and gives the view of one of its cells.
pub(crate) fn opened<K: KvStore, R: Wait>(
    rt: &R,
    alloc: Global,
    book: &TurnBook<State<K>>,
    pass: &mut Pass<State<K>>,
) -> Result<View, Fault>
    requires pass { IsRested book.now pass.old }
    requires taken { TakesMount book.now.fixed.store.names (codes "memory") }
    ensures passed { OnOk result (HasPassed book.now pass.old pass.new) }
    ensures view { IfOk result IsView }
    ensures refs { IfOk result (HasKnownRefs pass.new.seen) }
{
    let asked = asked(alloc)?;
    match open_in_turn(rt, book, pass, &asked) {
        Ok(opened) => leaf(alloc, opened.array),
        Err(_) => Err(Fault::Refused),
    }
}

fn leaf(alloc: Global, array: ArrayRef) -> Result<View, Fault>
    ensures view { IfOk result IsView }
    ensures refs { IfOk result (λ v. (events : History) → IsKnownRef events array → HasKnownRefs events v) }
{
    let transform = transform(alloc)?;
    if transform.maps().len() != array.shape.items().len() {
        return Err(Fault::Refused);
    }
    Ok(View::Leaf { array, transform })
}

fn transform(alloc: Global) -> Result<Transform, Fault> {
    let value = json(alloc, TRANSFORM)?;
    match read_transform(alloc, &value) {
        Ok(t) => Ok(t),
        Err(_) => Err(Fault::Refused),
    }
}

fn json(alloc: Global, text: &str) -> Result<Value, Fault> {
    match parse(alloc, text.as_bytes()) {
        Ok(value) => Ok(value),
        Err(_) => Err(Fault::Refused),
    }
}

fn asked(alloc: Global) -> Result<Asked, Fault>
    ensures { IfOk result (λ asked. asked.mount ≡ codes "memory") }
{
    let metadata = json(alloc, METADATA)?;
    asked_of(alloc, want(zarr_want(alloc, None, Some(&metadata)))?)
}

fn want<E: Drop>(answer: Result<ZarrWant, E>) -> Result<Want, Fault> {
    match answer {
        Ok(want) => Ok(Want::Zarr { want }),
        Err(_) => Err(Fault::Refused),
    }
}

fn asked_of(alloc: Global, want: Want) -> Result<Asked, Fault>
    ensures { IfOk result (λ asked. asked.mount ≡ codes "memory") }
{
    let mount = Name::wrap(String::from_str(alloc, "memory")?);
    let path = Name::wrap(String::from_str(alloc, "x")?);
    Ok(Asked {
        mount,
        path,
        want,
        may_open: false,
        may_create: true,
    })
}
