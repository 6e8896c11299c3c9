// A check of files in memory.
use crate::args::{items, items_at, number_or};
use crate::fault::Fault;
use crate::texts::bytes_of;
use serde_json::Value;
use std::alloc::Global;
use std::str;
use transcript_check::{MemoryScripts, MemorySink, check_run};

// The most bytes that a case's sink may have room for.
const ROOM: u64 = 1000;

/// The status of a check of the `words` over `files`, each a name and lines, and what the sink has then, which has `room` for so many bytes.
/// `fail_select`, `fail_next` and `fail_write` name a call that is to fail.
pub(crate) fn of_files(alloc: Global, v: &Value, files: &[Value]) -> Result<String, Fault> {
    let mut scripts = MemoryScripts::new(alloc);
    fill(alloc, &mut scripts, v, files)?;
    by_words(alloc, &mut scripts, v)
}

fn fill(
    alloc: Global,
    scripts: &mut MemoryScripts,
    v: &Value,
    files: &[Value],
) -> Result<(), Fault> {
    for file in files {
        add(alloc, scripts, items(file)?)?;
    }
    scripts.fail_select(number_or(v, "fail_select", 0)?)?;
    scripts.fail_next(number_or(v, "fail_next", 0)?)?;
    Ok(())
}

fn add(alloc: Global, scripts: &mut MemoryScripts, parts: &[Value]) -> Result<(), Fault> {
    let [name, lines] = parts else {
        return Err(Fault::Line);
    };
    add_lines(
        alloc,
        scripts,
        name.as_str().ok_or(Fault::Line)?,
        items(lines)?,
    )
}

fn add_lines(
    alloc: Global,
    scripts: &mut MemoryScripts,
    name: &str,
    lines: &[Value],
) -> Result<(), Fault> {
    let bytes = bytes_of(alloc, lines, "")?;
    scripts.add(name, &bytes)?;
    Ok(())
}

fn by_words(alloc: Global, scripts: &mut MemoryScripts, v: &Value) -> Result<String, Fault> {
    let words = words_of(alloc, items_at(v, "words")?)?;
    with_sink(alloc, scripts, v, &words)
}

fn words_of(alloc: Global, words: &[Value]) -> Result<Vec<String>, Fault> {
    let mut all = Vec::with_capacity(alloc, words.len())?;
    for word in words {
        all.push(String::from_str(alloc, word.as_str().ok_or(Fault::Line)?)?)?;
    }
    Ok(all)
}

fn with_sink(
    alloc: Global,
    scripts: &mut MemoryScripts,
    v: &Value,
    words: &[String],
) -> Result<String, Fault> {
    let room = number_or(v, "room", ROOM)?;
    if room > ROOM {
        return Err(Fault::Line);
    }
    let mut sink = MemorySink::new(alloc, room as usize)?;
    sink.fail_write(number_or(v, "fail_write", 0)?)?;
    ran(alloc, scripts, &mut sink, words)
}

fn ran(
    alloc: Global,
    scripts: &mut MemoryScripts,
    sink: &mut MemorySink,
    words: &[String],
) -> Result<String, Fault> {
    let status = check_run(alloc, words, scripts, sink);
    shown(alloc, status, sink.bytes())
}

fn shown(alloc: Global, status: u8, bytes: &[u8]) -> Result<String, Fault> {
    let text = str::from_utf8(bytes).map_err(|_| Fault::Line)?;
    Ok(format!(in alloc; "status {status} {text:?}")?)
}
