// What a line shows behind its answers.
use answer_text::{Answer, render};
use case_lines::{Fault, items, text_of};
use kv_face::MemoryKv;
use serde_json::Value;
use std::alloc::Global;
use std::str;

// An answer's line.
pub(crate) fn put_answer(alloc: Global, text: &mut Vec<u8>, answer: &Answer) -> Result<(), Fault> {
    let line = render(alloc, answer)?;
    text.extend_from_slice(&line)?;
    Ok(())
}

// Where the line has keys to `show`, the numbers of events and of calls of `get`, and the bytes under each; what stands under `texts` as text.
pub(crate) fn put_end(
    alloc: Global,
    text: &mut Vec<u8>,
    v: &Value,
    events: usize,
    store: &MemoryKv,
) -> Result<(), Fault> {
    if let Some(keys) = v.get("show") {
        put_counts(alloc, text, events, store.gets())?;
        put_keys(alloc, text, items(keys)?, store)?;
    }
    if let Some(keys) = v.get("texts") {
        put_texts(alloc, text, items(keys)?, store)?;
    }
    text.extend_from_slice(b"end\n")?;
    Ok(())
}

fn put_counts(alloc: Global, text: &mut Vec<u8>, events: usize, gets: u64) -> Result<(), Fault> {
    let line = format!(in alloc; "events {events} gets {gets}\n")?;
    text.extend_from_slice(line.as_bytes())?;
    Ok(())
}

fn put_keys(
    alloc: Global,
    text: &mut Vec<u8>,
    keys: &[Value],
    store: &MemoryKv,
) -> Result<(), Fault> {
    for key in keys {
        put_key(alloc, text, text_of(key)?, store)?;
    }
    Ok(())
}

fn put_key(alloc: Global, text: &mut Vec<u8>, key: &str, store: &MemoryKv) -> Result<(), Fault> {
    let line = format!(in alloc; "{:?}\n", (key, store.held(key)))?;
    text.extend_from_slice(line.as_bytes())?;
    Ok(())
}

fn put_texts(
    alloc: Global,
    text: &mut Vec<u8>,
    keys: &[Value],
    store: &MemoryKv,
) -> Result<(), Fault> {
    for key in keys {
        put_text(alloc, text, text_of(key)?, store)?;
    }
    Ok(())
}

fn put_text(alloc: Global, text: &mut Vec<u8>, key: &str, store: &MemoryKv) -> Result<(), Fault> {
    let held = match store.held(key) {
        Some(bytes) => str::from_utf8(bytes).ok(),
        None => None,
    };
    let line = format!(in alloc; "{:?}\n", (key, held))?;
    text.extend_from_slice(line.as_bytes())?;
    Ok(())
}
