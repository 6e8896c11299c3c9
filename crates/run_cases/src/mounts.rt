// The mounts of a run: `memory`, and behind it `second` and `last`.
ghost use Rattle.std.specs.Prelude.{◌≡◌, codes, None, IfOk};
ghost use Rattle.kv_mounts.specs.Parts.{AreMounts};

use crate::filling::fill;
use case_lines::{Fault, items, number_or};
use cells::Name;
use kv_face::MemoryKv;
use kv_mounts::Mount;
use serde_json::Value;
use std::alloc::Global;

/// `"mounts":[KIND,..]` has one to three kinds of stores: `together` makes all changes of a commit together, `apart` makes one at a time.
/// Without it there is one, which makes them together. `held` fills the first mount's store, `get` and `apply` name a call of that store
/// behind the filling that is to fail, and `finish` the mount, from 1, that is to fail to finish.
pub(crate) fn mounts_of_line(alloc: Global, v: &Value) -> Result<Vec<Mount<MemoryKv>>, Fault>
    ensures { IfOk result (λ m. AreMounts m.items) }
{
    match v.get("mounts") {
        None => one(alloc, v, true),
        Some(kinds) => of_kinds(alloc, v, items(kinds)?),
    }
}

fn of_kinds(alloc: Global, v: &Value, kinds: &[Value]) -> Result<Vec<Mount<MemoryKv>>, Fault>
    ensures { IfOk result (λ m. AreMounts m.items) }
{
    match kinds {
        [first] => one(alloc, v, kind(first)?),
        [first, second] => two(alloc, v, kind(first)?, kind(second)?),
        [first, second, third] => three(alloc, v, kind(first)?, kind(second)?, kind(third)?),
        _ => Err(Fault::Line),
    }
}

fn kind(v: &Value) -> Result<bool, Fault> {
    match v.as_str() {
        Some("together") => Ok(true),
        Some("apart") => Ok(false),
        _ => Err(Fault::Line),
    }
}

fn one(alloc: Global, v: &Value, kind: bool) -> Result<Vec<Mount<MemoryKv>>, Fault>
    ensures { IfOk result (λ m. AreMounts m.items) }
{
    let mut mounts = Vec::new(alloc);
    mounts.push(mount(alloc, "memory", first_store(alloc, v, kind)?)?)?;
    Ok(mounts)
}

fn two(alloc: Global, v: &Value, first: bool, second: bool) -> Result<Vec<Mount<MemoryKv>>, Fault>
    ensures { IfOk result (λ m. AreMounts m.items) }
{
    let mut mounts = Vec::new(alloc);
    mounts.push(mount(alloc, "memory", first_store(alloc, v, first)?)?)?;
    mounts.push(mount(alloc, "second", store(alloc, v, second, 2)?)?)?;
    Ok(mounts)
}

fn three(
    alloc: Global,
    v: &Value,
    first: bool,
    second: bool,
    third: bool,
) -> Result<Vec<Mount<MemoryKv>>, Fault>
    ensures { IfOk result (λ m. AreMounts m.items) }
{
    let mut mounts = Vec::new(alloc);
    mounts.push(mount(alloc, "memory", first_store(alloc, v, first)?)?)?;
    mounts.push(mount(alloc, "second", store(alloc, v, second, 2)?)?)?;
    mounts.push(mount(alloc, "last", store(alloc, v, third, 3)?)?)?;
    Ok(mounts)
}

fn mount(alloc: Global, name: &str, store: MemoryKv) -> Result<Mount<MemoryKv>, Fault>
    ensures name { IfOk result (λ m. m.name ≡ name.now) }
    ensures every { IfOk result (λ m. m.names ≡ None) }
{
    Ok(Mount {
        name: Name::wrap(String::from_str(alloc, name)?),
        store,
    })
}

fn first_store(alloc: Global, v: &Value, kind: bool) -> Result<MemoryKv, Fault> {
    let get = number_or(v, "get", 0)?;
    let apply = number_or(v, "apply", 0)?;
    let mut store = store(alloc, v, kind, 1)?;
    let filled = fill(alloc, &mut store, v)?;
    store.fail_get(get)?;
    if apply > 0 {
        store.fail_apply(apply.checked_add(filled).ok_or(Fault::Line)?)?;
    }
    Ok(store)
}

fn store(alloc: Global, v: &Value, kind: bool, place: u64) -> Result<MemoryKv, Fault> {
    let fails = number_or(v, "finish", 0)? == place;
    let mut store = MemoryKv::new(alloc, kind);
    if fails {
        store.fail_finish();
    }
    Ok(store)
}
