// `{"scripts":{NAME:TEXT,..},"words":[..],"get":N,"apply":N,"finish":N,"select":N,"next":N,"write":N,"room":N,"keys":[..],"held":[..],"gets":true,
// "mounts":[..]}`: a run of the scripts by these words, over empty mounts but for what is held. A number names the call of its kind that is
// to fail.
ghost use Rattle.kv_mounts.specs.Parts.{AreMounts};

use crate::mounts::mounts_of_line;
use crate::reports::report;
use case_lines::{Fault, items, member, number_or, text_of};
use kv_face::MemoryKv;
use script_runner::{MemoryScripts, MemorySink, Mount, OpenGate, run};
use serde_json::Value;
use std::alloc::Global;
use std::sync::Wait;
use std::thread::Threads;

pub(crate) fn run_line<R: Threads + Wait + Sync>(
    rt: &R,
    alloc: Global,
    v: &Value,
) -> Result<String, Fault> {
    let words = words(alloc, v)?;
    with_words(rt, alloc, v, &words)
}

fn with_words<R: Threads + Wait + Sync>(
    rt: &R,
    alloc: Global,
    v: &Value,
    words: &[String],
) -> Result<String, Fault> {
    let mut scripts = MemoryScripts::new(alloc);
    with_scripts(rt, alloc, v, words, &mut scripts)
}

fn with_scripts<R: Threads + Wait + Sync>(
    rt: &R,
    alloc: Global,
    v: &Value,
    words: &[String],
    scripts: &mut MemoryScripts,
) -> Result<String, Fault> {
    add_scripts(scripts, member(v, "scripts")?)?;
    scripts.fail_select(number_or(v, "select", 0)?)?;
    scripts.fail_next(number_or(v, "next", 0)?)?;
    let room = number_or(v, "room", 4_194_304)?;
    let mut sink = MemorySink::new(alloc, room as usize)?;
    with_sink(rt, alloc, v, words, scripts, &mut sink)
}

fn with_sink<R: Threads + Wait + Sync>(
    rt: &R,
    alloc: Global,
    v: &Value,
    words: &[String],
    scripts: &mut MemoryScripts,
    sink: &mut MemorySink,
) -> Result<String, Fault> {
    sink.fail_write(number_or(v, "write", 0)?)?;
    let mut mounts = mounts_of_line(alloc, v)?;
    with_mounts(rt, alloc, v, words, scripts, sink, &mut mounts)
}

fn with_mounts<R: Threads + Wait + Sync>(
    rt: &R,
    alloc: Global,
    v: &Value,
    words: &[String],
    scripts: &mut MemoryScripts,
    sink: &mut MemorySink,
    mounts: &mut Vec<Mount<MemoryKv>>,
) -> Result<String, Fault>
    requires { AreMounts mounts.old.items }
{
    let outcome = run(alloc, rt, words, scripts, sink, mounts, &OpenGate);
    report(alloc, v, &outcome, sink, mounts.as_slice())
}

fn add_scripts(scripts: &mut MemoryScripts, v: &Value) -> Result<(), Fault> {
    match v.as_object() {
        Some(map) => {
            for (name, text) in map {
                scripts.add(name.as_str(), text_of(text)?.as_bytes())?;
            }
            Ok(())
        }
        None => Err(Fault::Line),
    }
}

// The words, `s` alone where the line names none.
fn words(alloc: Global, v: &Value) -> Result<Vec<String>, Fault> {
    let mut words = Vec::new(alloc);
    match v.get("words") {
        Some(list) => put_words(alloc, &mut words, items(list)?)?,
        None => words.push(String::from_str(alloc, "s")?)?,
    }
    Ok(words)
}

fn put_words(alloc: Global, words: &mut Vec<String>, list: &[Value]) -> Result<(), Fault> {
    for word in list {
        words.push(String::from_str(alloc, text_of(word)?)?)?;
    }
    Ok(())
}
