// A new shape: `{"call":"resize","array":N,"shape":[..]}`.
ghost use Rattle.std.specs.Prelude.{◌≡◌, IsTrue, length};
ghost use Rattle.cells.specs.Shapes.{IsShape};
ghost use Rattle.state_resizes.specs.Conditions.{IsAsked};
ghost use Rattle.state_cases.specs.Ready.{IsReady};

use crate::owner::owner;
use case_lines::{Fault, number, sizes, told_line};
use cells::is_shape;
use kv_face::KvStore;
use serde_json::Value;
use shared_state::State;
use state_resizes::resize;
use std::alloc::Global;

pub(crate) fn new_shape<K: KvStore>(
    alloc: Global,
    v: &Value,
    state: &mut State<K>,
) -> Result<String, Fault>
    requires { IsReady (K.seen state.old.store) state.old.log }
    ensures { IsReady (K.seen state.new.store) state.new.log }
{
    let shape = sizes(alloc, v, "shape")?;
    of_array(alloc, owner(v)?, number(v, "array")?, &shape, state)
}

fn of_array<K: KvStore>(
    alloc: Global,
    owner: u32,
    array: u64,
    shape: &[u64],
    state: &mut State<K>,
) -> Result<String, Fault>
    requires { IsReady (K.seen state.old.store) state.old.log }
    ensures { IsReady (K.seen state.new.store) state.new.log }
{
    if !state.has_array(array) || state.is_local(array) {
        return told_line(alloc, &"no stored array");
    }
    let bounds = state.bounds(array)?;
    if !may_follow(bounds.shape.items(), shape) {
        return told_line(alloc, &"no shape");
    }
    resized(alloc, owner, array, shape, state)
}

// Whether an array of one shape may be asked to take another.
fn may_follow(present: &[u64], shape: &[u64]) -> bool
    ensures rank { IsTrue result → length shape.now ≡ length present.now }
    ensures shape { IsTrue result → IsShape shape.now }
{
    shape.len() == present.len() && is_shape(shape)
}

fn resized<K: KvStore>(
    alloc: Global,
    owner: u32,
    array: u64,
    shape: &[u64],
    state: &mut State<K>,
) -> Result<String, Fault>
    requires ready { IsReady (K.seen state.old.store) state.old.log }
    requires asked { IsAsked state.old.log.events array shape.now }
    ensures { IsReady (K.seen state.new.store) state.new.log }
{
    let answer = resize(alloc, state, owner, array, shape);
    told_line(alloc, &answer)
}
