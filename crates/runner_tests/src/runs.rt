// Runs of scripts on several workers, told as text.
ghost use Rattle.std.specs.Prelude.{◌≡◌, None, codes, IfOk};
ghost use Rattle.kv_mounts.specs.Parts.{AreMounts};

use crate::counted::Counted;
use cells::{List, Name};
use kv_face::{Change, KvStore, MemoryKv};
use script_runner::{Gate, MemoryScripts, MemorySink, Mount, Outcome, run};
use std::alloc::{AllocError, Global};
use std::str;
use std::sync::Wait;
use std::sync::atomic::AtomicU64;
use std::test::Fail;
use std::thread::Threads;

/// A store that is told of and wants no memory.
pub(crate) fn counted<'n>(store: MemoryKv, made: &'n AtomicU64) -> Counted<'n> {
    Counted {
        store,
        made,
        get_wants: 0,
        apply_wants: 0,
    }
}

/// Puts bytes under a key.
pub(crate) fn put(
    alloc: Global,
    store: &mut MemoryKv,
    key: &str,
    bytes: &[u8],
) -> Result<(), Fail> {
    let change = change(alloc, Name::wrap(String::from_str(alloc, key)?), bytes)?;
    Ok(store.apply(&[change])?)
}

fn change(alloc: Global, key: Name, bytes: &[u8]) -> Result<Change, AllocError> {
    let bytes = Some(List::wrap(Vec::from_slice(alloc, bytes)?));
    Ok(Change { key, bytes })
}

/// Runs each text as a script, the first in session 0, with these words in front of the scripts' names `0`, `1` and so on. What comes, as
/// text: the status, the places of the mounts that weren't finished, the number of events, the answers, and what stands under a key of
/// `memory`.
pub(crate) fn told<'n, R: Threads + Wait + Sync, G: Gate + Sync>(
    rt: &R,
    alloc: Global,
    words: &[&str],
    texts: &[&str],
    store: Counted<'n>,
    gate: &G,
    key: &str,
) -> Result<String, Fail> {
    let mut mounts = mounts(alloc, store)?;
    with_mounts(rt, alloc, words, texts, &mut mounts, gate, key)
}

/// The mount `memory` of this store.
pub(crate) fn mounts<'n>(
    alloc: Global,
    store: Counted<'n>,
) -> Result<Vec<Mount<Counted<'n>>>, AllocError>
    ensures { IfOk result (λ m. AreMounts m.items) }
{
    let mut mounts = Vec::new(alloc);
    mounts.push(memory(alloc, store)?)?;
    Ok(mounts)
}

fn memory<'n>(alloc: Global, store: Counted<'n>) -> Result<Mount<Counted<'n>>, AllocError>
    ensures name { IfOk result (λ m. m.name ≡ codes "memory") }
    ensures every { IfOk result (λ m. m.names ≡ None) }
{
    Ok(Mount {
        name: Name::wrap(String::from_str(alloc, "memory")?),
        store,
    })
}

fn with_mounts<'n, R: Threads + Wait + Sync, G: Gate + Sync>(
    rt: &R,
    alloc: Global,
    words: &[&str],
    texts: &[&str],
    mounts: &mut Vec<Mount<Counted<'n>>>,
    gate: &G,
    key: &str,
) -> Result<String, Fail>
    requires { AreMounts mounts.old.items }
{
    let mut sink = MemorySink::new(alloc, 65_536)?;
    let outcome = run_texts(rt, alloc, words, texts, &mut sink, mounts, gate)?;
    report(alloc, &outcome, &sink, mounts.as_slice(), key)
}

/// The same, as the run's outcome; the answers go to the sink.
pub(crate) fn run_texts<'n, R: Threads + Wait + Sync, G: Gate + Sync>(
    rt: &R,
    alloc: Global,
    words: &[&str],
    texts: &[&str],
    sink: &mut MemorySink,
    mounts: &mut Vec<Mount<Counted<'n>>>,
    gate: &G,
) -> Result<Outcome, Fail>
    requires { AreMounts mounts.old.items }
{
    let mut scripts = MemoryScripts::new(alloc);
    let words = all_words(alloc, words, texts, &mut scripts)?;
    Ok(run(alloc, rt, &words, &mut scripts, sink, mounts, gate))
}

// The words, and behind them the names of the scripts, which are added under these.
fn all_words(
    alloc: Global,
    options: &[&str],
    texts: &[&str],
    scripts: &mut MemoryScripts,
) -> Result<Vec<String>, AllocError> {
    let mut words = Vec::new(alloc);
    for option in options {
        words.push(String::from_str(alloc, option)?)?;
    }
    for place in 0..texts.len() {
        let name = format!(in alloc; "{place}")?;
        scripts.add(name.as_str(), texts[place].as_bytes())?;
        words.push(name)?;
    }
    Ok(words)
}

fn report<'n>(
    alloc: Global,
    outcome: &Outcome,
    sink: &MemorySink,
    mounts: &[Mount<Counted<'n>>],
    key: &str,
) -> Result<String, Fail> {
    let status = outcome.status;
    let unfinished = outcome.unfinished.items();
    let events = outcome.history.items().len();
    let answers = str::from_utf8(sink.bytes())?;
    let [mount] = mounts else {
        return Ok(String::new(alloc));
    };
    let held = mount.store.store.held(key);
    Ok(format!(in alloc;
        "status {status}, unfinished {unfinished:?}, events {events}\n{answers}{held:?}"
    )?)
}
