// What a line shows behind its calls.
use case_lines::{Fault, items, put_gets, told_line};
use history::{Event, Kind};
use kv_face::MemoryKv;
use serde_json::Value;
use std::alloc::Global;

// A line for each event.
pub(crate) fn put_events(alloc: Global, text: &mut String, events: &[Event]) -> Result<(), Fault> {
    for event in events {
        put_event(alloc, text, event)?;
    }
    Ok(())
}

fn put_event(alloc: Global, text: &mut String, event: &Event) -> Result<(), Fault> {
    let line = event_line(alloc, event.owner, &event.kind)?;
    text.push_str(line.as_str())?;
    Ok(())
}

// Whose an event is, and what it says: an array's number; where a transaction was begun, how many operations it has, and the one key
// that was committed of it; an array's number and shape; a mount.
fn event_line(alloc: Global, owner: u32, kind: &Kind) -> Result<String, Fault> {
    match kind {
        Kind::Opened { array } => told_line(alloc, &(owner, "opened", array.number)),
        Kind::Done { line, ops, key, .. } => {
            let key = match key {
                Some(key) => Some(key.items()),
                None => None,
            };
            told_line(alloc, &(owner, "done", line, ops.items().len(), key))
        }
        Kind::Resized { array, shape } => told_line(
            alloc,
            &(owner, "resized", array, shape.items()),
        ),
        Kind::Fault { mount } => told_line(alloc, &(owner, "fault", mount.items())),
    }
}

// The number of calls of `get`, and what the store has under the keys that are to be shown.
pub(crate) fn ended(
    alloc: Global,
    v: &Value,
    text: &mut String,
    store: &MemoryKv,
) -> Result<(), Fault> {
    put_gets(alloc, text, store.gets())?;
    if let Some(keys) = v.get("show") {
        for key in items(keys)? {
            put_held(alloc, text, key.as_str().ok_or(Fault::Line)?, store)?;
        }
    }
    Ok(())
}

fn put_held(alloc: Global, text: &mut String, key: &str, store: &MemoryKv) -> Result<(), Fault> {
    let line = told_line(alloc, &(key, store.held(key)))?;
    text.push_str(line.as_str())?;
    Ok(())
}
