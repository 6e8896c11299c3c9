// Stores in memory that begin with what a line says.
use crate::fault::Fault;
use crate::numbers::bytes;
use crate::reading::{is_true, items, number_or};
use cells::{List, Name};
use kv_face::{Change, KvError, KvStore, MemoryKv};
use serde_json::Value;
use std::alloc::Global;

/// A store that has under the key of each entry its text or bytes, and of which the call of `get` or `apply` that the line names fails,
/// counted from 1 behind the filling. With `apart` it makes one change at a time.
pub fn store_of(alloc: Global, v: &Value, entries: &[Value]) -> Result<MemoryKv, Fault> {
    let mut store = MemoryKv::new(alloc, !is_true(v, "apart"));
    fill(alloc, &mut store, entries)?;
    let get = number_or(v, "get", 0)?;
    let apply = number_or(v, "apply", 0)?;
    store.fail_get(get)?;
    if apply > 0 {
        let filled = entries.len() as u64;
        store.fail_apply(apply.checked_add(filled).ok_or(Fault::Line)?)?;
    }
    Ok(store)
}

fn fill(alloc: Global, store: &mut MemoryKv, entries: &[Value]) -> Result<(), Fault> {
    for entry in entries {
        put(alloc, store, entry)?;
    }
    Ok(())
}

// An entry is a key, and a text or bytes.
fn put(alloc: Global, store: &mut MemoryKv, entry: &Value) -> Result<(), Fault> {
    let [key, bytes] = items(entry)? else {
        return Err(Fault::Line);
    };
    let key = key.as_str().ok_or(Fault::Line)?;
    put_bytes(alloc, store, key, content(alloc, bytes)?)
}

/// The bytes of a text, or those that the numbers of a list are.
pub fn content(alloc: Global, v: &Value) -> Result<Vec<u8>, Fault> {
    match v.as_str() {
        Some(text) => Ok(Vec::from_slice(alloc, text.as_bytes())?),
        None => bytes(alloc, items(v)?),
    }
}

/// Puts bytes under a key.
pub fn put_bytes(
    alloc: Global,
    store: &mut MemoryKv,
    key: &str,
    bytes: Vec<u8>,
) -> Result<(), Fault> {
    let key = Name::wrap(String::from_str(alloc, key)?);
    let change = Change {
        key,
        bytes: Some(List::wrap(bytes)),
    };
    make(store, change)
}

fn make(store: &mut MemoryKv, change: Change) -> Result<(), Fault> {
    match store.apply(&[change]) {
        Ok(()) => Ok(()),
        Err(KvError::Failed) => Err(Fault::Line),
        Err(KvError::Memory) => Err(Fault::Memory),
    }
}

/// Puts the number of calls of `get` behind a text, as a line.
pub fn put_gets(alloc: Global, text: &mut String, gets: u64) -> Result<(), Fault> {
    let line = format!(in alloc; "gets {gets}\n")?;
    text.push_str(line.as_str())?;
    Ok(())
}

/// The names of the mounts, `memory` and `file`.
pub fn mount_names(alloc: Global) -> Result<Vec<Name>, Fault> {
    let mut names = Vec::with_capacity(alloc, 2)?;
    names.push(Name::wrap(String::from_str(alloc, "memory")?))?;
    names.push(Name::wrap(String::from_str(alloc, "file")?))?;
    Ok(names)
}
