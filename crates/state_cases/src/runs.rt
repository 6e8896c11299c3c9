// `{"store":[[KEY,TEXT or BYTES],..],"cache":N,"get":N,"apply":N,"apart":B,"calls":[..],"keys":[..]}`: calls on a state over a store
// that begins with these, with a cache of so many cells; then the number of calls of `get`, and what stands under the keys.
// `{"files":FOLDER,"cache":N,"calls":[..]}`: the same calls over the files of a folder.
ghost use Rattle.std.specs.Prelude.{◌≡◌, ◌≤◌, ◌^◌, None};
ghost use Rattle.state_cases.specs.Ready.{IsReady};

use crate::calls::answer;
use case_lines::{Fault, items, member, number_or, put_gets, store_of, told_line};
use kv_face::{KvStore, MemoryKv};
use kv_mounts::FileKv;
use serde_json::Value;
use shared_state::State;
use std::alloc::Global;

const MOST_CACHED: u64 = 1 << 27;

pub(crate) fn run(rt: HostRuntime, alloc: Global, v: &Value) -> Result<String, Fault> {
    let limit = number_or(v, "cache", 1_048_576)?;
    if limit > MOST_CACHED {
        return Err(Fault::Line);
    }
    match v.get("files") {
        Some(root) => over_files(rt, alloc, v, root.as_str().ok_or(Fault::Line)?, limit),
        None => over_memory(alloc, v, limit),
    }
}

fn over_memory(alloc: Global, v: &Value, limit: u64) -> Result<String, Fault>
    requires { limit ≤ 2 ^ 27 }
{
    let store = store_of(alloc, v, items(member(v, "store")?)?)?;
    let (text, store) = called(alloc, v, store, limit)?;
    ended(alloc, v, text, &store)
}

fn over_files(
    rt: HostRuntime,
    alloc: Global,
    v: &Value,
    root: &str,
    limit: u64,
) -> Result<String, Fault>
    requires { limit ≤ 2 ^ 27 }
{
    let store = FileKv::new(rt, root)?;
    let (text, _) = called(alloc, v, store, limit)?;
    Ok(text)
}

// What the calls give, and the store behind them.
fn called<K: KvStore>(alloc: Global, v: &Value, store: K, limit: u64) -> Result<(String, K), Fault>
    requires limit { limit ≤ 2 ^ 27 }
    requires every { (K.seen store).names ≡ None }
{
    match State::new(alloc, store, limit) {
        Ok(state) => with_state(alloc, v, state),
        Err(_) => Err(Fault::Memory),
    }
}

fn with_state<K: KvStore>(
    alloc: Global,
    v: &Value,
    mut state: State<K>,
) -> Result<(String, K), Fault>
    requires { IsReady (K.seen state.store) state.log }
{
    let text = answers(alloc, items(member(v, "calls")?)?, &mut state)?;
    let (store, _) = state.into_parts();
    Ok((text, store))
}

fn answers<K: KvStore>(
    alloc: Global,
    calls: &[Value],
    state: &mut State<K>,
) -> Result<String, Fault>
    requires { IsReady (K.seen state.old.store) state.old.log }
{
    let mut text = String::new(alloc);
    for call in calls {
        put_answer(alloc, &mut text, call, state)?;
    }
    Ok(text)
}

fn put_answer<K: KvStore>(
    alloc: Global,
    text: &mut String,
    call: &Value,
    state: &mut State<K>,
) -> Result<(), Fault>
    requires { IsReady (K.seen state.old.store) state.old.log }
    ensures { IsReady (K.seen state.new.store) state.new.log }
{
    let line = answer(alloc, call, state)?;
    text.push_str(line.as_str())?;
    Ok(())
}

// The number of calls of `get`, and what the store has under some keys.
fn ended(alloc: Global, v: &Value, mut text: String, store: &MemoryKv) -> Result<String, Fault> {
    put_gets(alloc, &mut text, store.gets())?;
    if let Some(keys) = v.get("keys") {
        for key in items(keys)? {
            put_held(alloc, &mut text, key.as_str().ok_or(Fault::Line)?, store)?;
        }
    }
    Ok(text)
}

fn put_held(alloc: Global, text: &mut String, key: &str, store: &MemoryKv) -> Result<(), Fault> {
    let line = told_line(alloc, &store.held(key))?;
    text.push_str(line.as_str())?;
    Ok(())
}
