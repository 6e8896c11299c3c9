// Calls for a chunk: `{"call":NAME,"array":N,"chunk":[..]}`.
ghost use Rattle.std.specs.Prelude.{◌≡◌};
ghost use Rattle.state_laws.specs.Fetches.{IsChunkOf};
ghost use Rattle.state_cases.specs.Ready.{IsReady};

use crate::owner::owner;
use crate::planning::plan;
use crate::settling::settle;
use case_lines::{Fault, number, sizes, told_line};
use kv_face::KvStore;
use serde_json::Value;
use shared_state::State;
use std::alloc::Global;

pub(crate) fn chunk<K: KvStore>(
    alloc: Global,
    call: &str,
    v: &Value,
    state: &mut State<K>,
) -> Result<String, Fault>
    requires { IsReady (K.seen state.old.store) state.old.log }
    ensures { IsReady (K.seen state.new.store) state.new.log }
{
    let chunk = sizes(alloc, v, "chunk")?;
    of_chunk(
        alloc,
        call,
        v,
        owner(v)?,
        number(v, "array")?,
        &chunk,
        state,
    )
}

fn of_chunk<K: KvStore>(
    alloc: Global,
    call: &str,
    v: &Value,
    owner: u32,
    array: u64,
    chunk: &[u64],
    state: &mut State<K>,
) -> Result<String, Fault>
    requires { IsReady (K.seen state.old.store) state.old.log }
    ensures { IsReady (K.seen state.new.store) state.new.log }
{
    if !state.is_chunk(array, chunk) {
        return told_line(alloc, &"no chunk");
    }
    match call {
        "fetch" => fetch(alloc, owner, array, chunk, state),
        "look" => look(alloc, owner, array, chunk, state),
        "kept" => kept(alloc, array, chunk, state),
        "settle" => settle(alloc, owner, array, chunk, state),
        "key" => key(alloc, array, chunk, state),
        "plan" => plan(alloc, owner, array, chunk, v, state),
        _ => Err(Fault::Line),
    }
}

fn fetch<K: KvStore>(
    alloc: Global,
    owner: u32,
    array: u64,
    chunk: &[u64],
    state: &mut State<K>,
) -> Result<String, Fault>
    requires ready { IsReady (K.seen state.old.store) state.old.log }
    requires chunk { IsChunkOf state.old.log.events (record { array = array; index = chunk.now }) }
    ensures { IsReady (K.seen state.new.store) state.new.log }
{
    let answer = state.fetch(owner, array, chunk);
    told_line(alloc, &answer)
}

fn look<K: KvStore>(
    alloc: Global,
    owner: u32,
    array: u64,
    chunk: &[u64],
    state: &mut State<K>,
) -> Result<String, Fault>
    requires ready { IsReady (K.seen state.old.store) state.old.log }
    requires chunk { IsChunkOf state.old.log.events (record { array = array; index = chunk.now }) }
    ensures { IsReady (K.seen state.new.store) state.new.log }
{
    let answer = state.look(owner, array, chunk);
    told_line(alloc, &answer)
}

fn kept<K: KvStore>(
    alloc: Global,
    array: u64,
    chunk: &[u64],
    state: &mut State<K>,
) -> Result<String, Fault>
    requires ready { IsReady (K.seen state.old.store) state.old.log }
    requires chunk { IsChunkOf state.old.log.events (record { array = array; index = chunk.now }) }
    ensures { IsReady (K.seen state.new.store) state.new.log }
{
    let answer = state.kept(array, chunk);
    told_line(alloc, &answer)
}

fn key<K: KvStore>(
    alloc: Global,
    array: u64,
    chunk: &[u64],
    state: &State<K>,
) -> Result<String, Fault>
    requires { IsChunkOf state.now.log.events (record { array = array; index = chunk.now }) }
{
    let key = state.key(array, chunk)?;
    told_line(alloc, &key.items())
}
