// One call on a state: `{"call":NAME, arguments}`.
ghost use Rattle.state_cases.specs.Ready.{IsReady};

use crate::chunks::chunk;
use crate::opens::{open, open_local};
use crate::resizing::new_shape;
use case_lines::{Fault, number, text, told_line};
use kv_face::KvStore;
use serde_json::Value;
use shared_state::State;
use std::alloc::Global;

pub(crate) fn answer<K: KvStore>(
    alloc: Global,
    v: &Value,
    state: &mut State<K>,
) -> Result<String, Fault>
    requires { IsReady (K.seen state.old.store) state.old.log }
    ensures { IsReady (K.seen state.new.store) state.new.log }
{
    match text(v, "call")? {
        "open" => open(alloc, v, state),
        "local" => open_local(alloc, v, state),
        "events" => told_line(alloc, &state.events()),
        "generation" => generation(alloc, state, text(v, "key")?),
        "resize" => new_shape(alloc, v, state),
        "array" => array(alloc, state, number(v, "array")?),
        call => chunk(alloc, call, v, state),
    }
}

fn generation<K: KvStore>(alloc: Global, state: &State<K>, key: &str) -> Result<String, Fault>
    requires { IsReady (K.seen state.now.store) state.now.log }
{
    told_line(alloc, &state.generation(key))
}

// An array's present bounds and form, or that there is none of this number.
fn array<K: KvStore>(alloc: Global, state: &State<K>, array: u64) -> Result<String, Fault>
    requires { IsReady (K.seen state.now.store) state.now.log }
{
    if !state.has_array(array) {
        return told_line(alloc, &"no array");
    }
    let bounds = state.bounds(array)?;
    let form = state.info(array)?;
    told_line(alloc, &(bounds, form))
}
