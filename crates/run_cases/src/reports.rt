// What became of a run.
use case_lines::{Fault, items, text_of};
use kv_face::MemoryKv;
use script_runner::{MemorySink, Mount, Outcome};
use serde_json::Value;
use std::alloc::Global;
use std::str;

/// What became of a run, line by line.
pub(crate) fn report(
    alloc: Global,
    v: &Value,
    outcome: &Outcome,
    sink: &MemorySink,
    mounts: &[Mount<MemoryKv>],
) -> Result<String, Fault> {
    let mut text = heading(alloc, outcome)?;
    put_report(&mut text, v, sink, mounts)?;
    if v.get("gets").is_some() {
        put_gets(alloc, &mut text, mounts)?;
    }
    Ok(text)
}

fn heading(alloc: Global, outcome: &Outcome) -> Result<String, Fault> {
    let status = outcome.status;
    let script = outcome.script;
    let unfinished = outcome.unfinished.items();
    let events = outcome.history.items().len();
    Ok(format!(in alloc;
        "status {status}, script {script:?}, unfinished {unfinished:?}, events {events}\n"
    )?)
}

fn put_report(
    text: &mut String,
    v: &Value,
    sink: &MemorySink,
    mounts: &[Mount<MemoryKv>],
) -> Result<(), Fault> {
    put_answers(text, sink.bytes())?;
    if let Some(keys) = v.get("keys") {
        put_keys(text, items(keys)?, mounts)?;
    }
    Ok(())
}

fn put_keys(text: &mut String, keys: &[Value], mounts: &[Mount<MemoryKv>]) -> Result<(), Fault> {
    for key in keys {
        put_held(text, text_of(key)?, mounts)?;
    }
    Ok(())
}

// How often the first mount's store was asked for a key.
fn put_gets(alloc: Global, text: &mut String, mounts: &[Mount<MemoryKv>]) -> Result<(), Fault> {
    if let Some(mount) = mounts.first() {
        let gets = mount.store.gets();
        text.push_str(format!(in alloc; "gets {gets}\n")?.as_str())?;
    }
    Ok(())
}

// What the sink got; a last line that isn't whole ends with `...`.
fn put_answers(text: &mut String, bytes: &[u8]) -> Result<(), Fault> {
    text.push_str(str::from_utf8(bytes).map_err(|_| Fault::Line)?)?;
    match bytes.last() {
        None | Some(b'\n') => Ok(()),
        Some(_) => Ok(text.push_str("...\n")?),
    }
}

// What stands under a key: metadata as its text, a chunk as its bytes.
fn put_held(text: &mut String, key: &str, mounts: &[Mount<MemoryKv>]) -> Result<(), Fault> {
    text.push_str(key)?;
    text.push_str(": ")?;
    match held(key, mounts) {
        None => text.push_str("nothing")?,
        Some(bytes) => put_bytes(text, bytes)?,
    }
    Ok(text.push('\n')?)
}

// What stands under the key `NAME/REST` in the mount of that name.
fn held<'m>(key: &str, mounts: &'m [Mount<MemoryKv>]) -> Option<&'m [u8]> {
    let (name, rest) = key.split_once('/')?;
    for mount in mounts {
        if name == mount.name.items() {
            return mount.store.held(rest);
        }
    }
    None
}

fn put_bytes(text: &mut String, bytes: &[u8]) -> Result<(), Fault> {
    if bytes.first() == Some(&b'{') {
        return Ok(text.push_str(str::from_utf8(bytes).map_err(|_| Fault::Line)?)?);
    }
    for byte in bytes {
        put_byte(text, *byte)?;
    }
    Ok(())
}

fn put_byte(text: &mut String, byte: u8) -> Result<(), Fault> {
    text.push(digit(byte / 16))?;
    Ok(text.push(digit(byte % 16))?)
}

fn digit(number: u8) -> char {
    match number {
        0 => '0',
        1 => '1',
        2 => '2',
        3 => '3',
        4 => '4',
        5 => '5',
        6 => '6',
        7 => '7',
        8 => '8',
        9 => '9',
        10 => 'a',
        11 => 'b',
        12 => 'c',
        13 => 'd',
        14 => 'e',
        _ => 'f',
    }
}
