// `{"steps":[..]}` or `{"scripts":[..]}`, beside what `store` and `put_end` read and the number of cells that the `cache` keeps; or a list
// of steps alone, over an empty store.
ghost use Rattle.std.specs.Prelude.{◌≡◌, ◌≤◌, ◌^◌, ◌∷◌, [], None, codes, vec_len};
ghost use Rattle.transaction_cases.specs.Sessions.{IsBetween, IsFresh};
ghost use Rattle.indexmap.specs.IndexMap.{get_by_text};
ghost use Rattle.session_runs.specs.Session.{HasMounts, session_with};
ghost use Rattle.turn_book.specs.Passes.{AreNew, IsIdle};

use crate::filling::store;
use crate::scripts::by_scripts;
use crate::session_ends::put_end;
use crate::steps::by_steps;
use case_lines::{Fault, items, number_or, said};
use cells::Name;
use kv_face::MemoryKv;
use serde_json::Value;
use session_runs::{Session, State};
use std::alloc::Global;
use std::str;
use std::sync::Wait;
use turn_book::{Pass, TurnBook};

const MOST_CACHED: u64 = 1 << 27;

pub(crate) fn run<R: Wait>(rt: &R, alloc: Global, v: &Value) -> Result<String, Fault> {
    let bytes = ran(rt, alloc, v)?;
    let text = str::from_utf8(&bytes).map_err(|_| Fault::Line)?;
    said(alloc, text)
}

fn ran<R: Wait>(rt: &R, alloc: Global, v: &Value) -> Result<Vec<u8>, Fault> {
    let mounts = [Name::wrap(String::from_str(alloc, "memory")?)];
    over_mounts(rt, alloc, v, &mounts)
}

fn over_mounts<R: Wait>(rt: &R, alloc: Global, v: &Value, mounts: &[Name]) -> Result<Vec<u8>, Fault>
    requires mounts { mounts.now ≡ codes "memory" ∷ [] }
{
    let limit = number_or(v, "cache", 1_048_576)?;
    if limit > MOST_CACHED {
        return Err(Fault::Line);
    }
    over_store(rt, alloc, v, mounts, store(alloc, v)?, limit)
}

fn over_store<R: Wait>(
    rt: &R,
    alloc: Global,
    v: &Value,
    mounts: &[Name],
    store: MemoryKv,
    limit: u64,
) -> Result<Vec<u8>, Fault>
    requires mounts { mounts.now ≡ codes "memory" ∷ [] }
    requires limit { limit ≤ 2 ^ 27 }
{
    match State::behind_turn(alloc, store, limit, 2) {
        Ok((book, passes)) => with_passes(rt, alloc, v, mounts, book, passes),
        Err(_) => Err(Fault::Memory),
    }
}

fn with_passes<R: Wait>(
    rt: &R,
    alloc: Global,
    v: &Value,
    mounts: &[Name],
    book: TurnBook<State<MemoryKv>>,
    mut passes: Vec<Pass<State<MemoryKv>>>,
) -> Result<Vec<u8>, Fault>
    requires mounts { mounts.now ≡ codes "memory" ∷ [] }
    requires every { book.fixed.store.names ≡ None }
    requires two { book.passes ≡ 2 }
    requires count { vec_len passes ≡ 2 }
    requires passes { AreNew book passes.items }
{
    let other = Session::new(alloc, passes.pop().unwrap());
    let one = Session::new(alloc, passes.pop().unwrap());
    with_sessions(rt, alloc, v, mounts, book, one, other)
}

fn with_sessions<R: Wait>(
    rt: &R,
    alloc: Global,
    v: &Value,
    mounts: &[Name],
    book: TurnBook<State<MemoryKv>>,
    mut one: Session<MemoryKv>,
    mut other: Session<MemoryKv>,
) -> Result<Vec<u8>, Fault>
    requires mounts { HasMounts book mounts.now }
    requires two { book.passes ≡ 2 }
    requires one { IsFresh book 0 (session_with one.pass (get_by_text one.names) one.txn one.log.items one.ended) }
    requires other { IsFresh book 1 (session_with other.pass
        (get_by_text other.names) other.txn other.log.items other.ended) }
{
    let text = answers(rt, alloc, v, mounts, &book, &mut one, &mut other)?;
    closed(alloc, v, text, book, one, other)
}

fn answers<R: Wait>(
    rt: &R,
    alloc: Global,
    v: &Value,
    mounts: &[Name],
    book: &TurnBook<State<MemoryKv>>,
    one: &mut Session<MemoryKv>,
    other: &mut Session<MemoryKv>,
) -> Result<Vec<u8>, Fault>
    requires mounts { HasMounts book.now mounts.now }
    requires one { IsFresh book.now 0 (session_with one.old.pass
        (get_by_text one.old.names) one.old.txn one.old.log.items one.old.ended) }
    requires other { IsFresh book.now 1 (session_with other.old.pass
        (get_by_text other.old.names) other.old.txn other.old.log.items other.old.ended) }
    ensures one { IsBetween book.now 0 one.new.pass (get_by_text one.new.names) one.new.txn one.new.ended }
    ensures other { IsBetween book.now 1 other.new.pass (get_by_text other.new.names) other.new.txn other.new.ended }
{
    if let Some(scripts) = v.get("scripts") {
        return by_scripts(rt, alloc, items(scripts)?, mounts, book, one, other);
    }
    let steps = match v.get("steps") {
        Some(steps) => steps,
        None => v,
    };
    by_steps(rt, alloc, items(steps)?, mounts, book, one, other)
}

// What the store holds behind the answers.
fn closed(
    alloc: Global,
    v: &Value,
    mut text: Vec<u8>,
    book: TurnBook<State<MemoryKv>>,
    one: Session<MemoryKv>,
    other: Session<MemoryKv>,
) -> Result<Vec<u8>, Fault>
    requires two { book.passes ≡ 2 }
    requires one { IsIdle book one.pass }
    requires other { IsIdle book other.pass }
    requires first { one.pass.number ≡ 0 }
    requires second { other.pass.number ≡ 1 }
{
    let state = last(alloc, book, one.pass, other.pass)?;
    put_state(alloc, &mut text, v, state)?;
    Ok(text)
}

fn put_state(
    alloc: Global,
    text: &mut Vec<u8>,
    v: &Value,
    state: State<MemoryKv>,
) -> Result<(), Fault> {
    let (store, events) = state.into_parts();
    put_end(alloc, text, v, events.len(), &store)
}

fn last(
    alloc: Global,
    book: TurnBook<State<MemoryKv>>,
    one: Pass<State<MemoryKv>>,
    other: Pass<State<MemoryKv>>,
) -> Result<State<MemoryKv>, Fault>
    requires two { book.passes ≡ 2 }
    requires one { IsIdle book one }
    requires other { IsIdle book other }
    requires first { one.number ≡ 0 }
    requires second { other.number ≡ 1 }
{
    let mut passes = Vec::with_capacity(alloc, 2)?;
    passes.push(one)?;
    passes.push(other)?;
    Ok(book.close(passes))
}
