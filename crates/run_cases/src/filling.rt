// What the store of the first mount holds before the run.
use case_lines::{Fault, content, items, items_if, put_bytes, text_of};
use kv_face::MemoryKv;
use serde_json::Value;
use std::alloc::Global;

/// `"held":[[KEY,BYTES],..]`: puts these bytes under each key of the mount `memory`. The bytes are a list of numbers, or a text.
/// It gives the number of changes that this takes.
pub(crate) fn fill(alloc: Global, store: &mut MemoryKv, v: &Value) -> Result<u64, Fault> {
    let entries = items_if(v, "held")?;
    for entry in entries {
        put(alloc, store, entry)?;
    }
    Ok(entries.len() as u64)
}

fn put(alloc: Global, store: &mut MemoryKv, entry: &Value) -> Result<(), Fault> {
    let [key, bytes] = items(entry)? else {
        return Err(Fault::Line);
    };
    let (name, rest) = text_of(key)?.split_once('/').ok_or(Fault::Line)?;
    if name != "memory" {
        return Err(Fault::Line);
    }
    put_bytes(alloc, store, rest, content(alloc, bytes)?)
}
