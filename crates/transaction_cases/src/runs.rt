// `{"a":STORE,"b":STORE,"cache":N,"calls":[..]}`: calls of two sessions over a store, or over two that are mounted as `a` and `b`, with a
// cache of so many cells. A call has `"by":1` where it is the second session's.
ghost use Rattle.std.specs.Prelude.{◌≡◌, ◌≤◌, ◌^◌, OnOk, vec_len};
ghost use Rattle.transaction_cases.specs.Seats.{IsSeat, IsSeatThen, TakesBoth};
ghost use Rattle.turn_book.specs.Passes.{AreNew, IsIdle};

use crate::calls::answer;
use crate::ended::{ended, put_events};
use crate::filling::{mounts, store};
use crate::seats::Seat;
use case_lines::{Fault, items, member, number_or};
use kv_face::{KvStore, MemoryKv};
use kv_mounts::Mount;
use serde_json::Value;
use session_runs::{OpenGate, State};
use std::alloc::Global;
use std::sync::Wait;
use turn_book::{Pass, TurnBook};

const MOST_CACHED: u64 = 1 << 27;

pub(crate) fn run<R: Wait>(rt: &R, alloc: Global, v: &Value) -> Result<String, Fault> {
    let limit = number_or(v, "cache", 1_048_576)?;
    if limit > MOST_CACHED {
        return Err(Fault::Line);
    }
    let a = member(v, "a")?;
    match v.get("b") {
        Some(b) => over_two(rt, alloc, v, a, b, limit),
        None => over_one(rt, alloc, v, a, limit),
    }
}

fn over_one<R: Wait>(
    rt: &R,
    alloc: Global,
    v: &Value,
    a: &Value,
    limit: u64,
) -> Result<String, Fault>
    requires limit { limit ≤ 2 ^ 27 }
{
    let store = store(alloc, a)?;
    let (mut text, store) = called(rt, alloc, v, store, limit)?;
    ended(alloc, a, &mut text, &store)?;
    Ok(text)
}

fn over_two<R: Wait>(
    rt: &R,
    alloc: Global,
    v: &Value,
    a: &Value,
    b: &Value,
    limit: u64,
) -> Result<String, Fault>
    requires limit { limit ≤ 2 ^ 27 }
{
    let mounts = mounts(alloc, a, b)?;
    let (mut text, mounts) = called(rt, alloc, v, mounts, limit)?;
    two_ended(alloc, a, b, &mut text, &mounts.into_list())?;
    Ok(text)
}

fn two_ended(
    alloc: Global,
    a: &Value,
    b: &Value,
    text: &mut String,
    mounts: &[Mount<MemoryKv>],
) -> Result<(), Fault> {
    let [one, other] = mounts else {
        return Err(Fault::Line);
    };
    ended(alloc, a, text, &one.store)?;
    ended(alloc, b, text, &other.store)
}

// What the calls give, and the store behind them.
fn called<K: KvStore, R: Wait>(
    rt: &R,
    alloc: Global,
    v: &Value,
    store: K,
    limit: u64,
) -> Result<(String, K), Fault>
    requires limit { limit ≤ 2 ^ 27 }
    requires mounts { TakesBoth ((K.seen store).names) }
{
    match State::behind_turn(alloc, store, limit, 2) {
        Ok((book, passes)) => with_passes(rt, alloc, v, book, passes),
        Err(_) => Err(Fault::Memory),
    }
}

fn with_passes<K: KvStore, R: Wait>(
    rt: &R,
    alloc: Global,
    v: &Value,
    book: TurnBook<State<K>>,
    mut passes: Vec<Pass<State<K>>>,
) -> Result<(String, K), Fault>
    requires two { book.passes ≡ 2 }
    requires count { vec_len passes ≡ 2 }
    requires passes { AreNew book passes.items }
    requires mounts { TakesBoth book.fixed.store.names }
{
    let other = Seat::new(alloc, passes.pop().unwrap());
    let one = Seat::new(alloc, passes.pop().unwrap());
    with_seats(rt, alloc, v, book, one, other)
}

fn with_seats<K: KvStore, R: Wait>(
    rt: &R,
    alloc: Global,
    v: &Value,
    book: TurnBook<State<K>>,
    mut one: Seat<K>,
    mut other: Seat<K>,
) -> Result<(String, K), Fault>
    requires two { book.passes ≡ 2 }
    requires mounts { TakesBoth book.fixed.store.names }
    requires one { IsSeat book one.pass one.arrays.items one.txn }
    requires other { IsSeat book other.pass other.arrays.items other.txn }
    requires first { one.pass.number ≡ 0 }
    requires second { other.pass.number ≡ 1 }
{
    let text = answers(
        rt,
        alloc,
        items(member(v, "calls")?)?,
        &book,
        &mut one,
        &mut other,
    )?;
    closed(alloc, text, book, one, other)
}

// The events behind the answers, and the store.
fn closed<K: KvStore>(
    alloc: Global,
    mut text: String,
    book: TurnBook<State<K>>,
    one: Seat<K>,
    other: Seat<K>,
) -> Result<(String, K), Fault>
    requires two { book.passes ≡ 2 }
    requires one { IsIdle book one.pass }
    requires other { IsIdle book other.pass }
    requires first { one.pass.number ≡ 0 }
    requires second { other.pass.number ≡ 1 }
{
    let state = last(alloc, book, one, other)?;
    let (store, events) = state.into_parts();
    put_events(alloc, &mut text, &events)?;
    Ok((text, store))
}

fn last<K: KvStore>(
    alloc: Global,
    book: TurnBook<State<K>>,
    one: Seat<K>,
    other: Seat<K>,
) -> Result<State<K>, Fault>
    requires two { book.passes ≡ 2 }
    requires one { IsIdle book one.pass }
    requires other { IsIdle book other.pass }
    requires first { one.pass.number ≡ 0 }
    requires second { other.pass.number ≡ 1 }
{
    let mut passes = Vec::with_capacity(alloc, 2)?;
    passes.push(one.pass)?;
    passes.push(other.pass)?;
    Ok(book.close(passes))
}

fn answers<K: KvStore, R: Wait>(
    rt: &R,
    alloc: Global,
    calls: &[Value],
    book: &TurnBook<State<K>>,
    one: &mut Seat<K>,
    other: &mut Seat<K>,
) -> Result<String, Fault>
    requires mounts { TakesBoth book.now.fixed.store.names }
    requires one { IsSeat book.now one.old.pass one.old.arrays.items one.old.txn }
    requires other { IsSeat book.now other.old.pass other.old.arrays.items other.old.txn }
    ensures one { OnOk result (IsSeatThen book.now one.old.pass one.new.pass one.new.arrays.items one.new.txn) }
    ensures other { OnOk result
        (IsSeatThen book.now other.old.pass other.new.pass other.new.arrays.items other.new.txn) }
{
    let mut text = String::new(alloc);
    for call in calls {
        put_answer(rt, alloc, &mut text, call, book, one, other)?;
    }
    Ok(text)
}

fn put_answer<K: KvStore, R: Wait>(
    rt: &R,
    alloc: Global,
    text: &mut String,
    call: &Value,
    book: &TurnBook<State<K>>,
    one: &mut Seat<K>,
    other: &mut Seat<K>,
) -> Result<(), Fault>
    requires mounts { TakesBoth book.now.fixed.store.names }
    requires one { IsSeat book.now one.old.pass one.old.arrays.items one.old.txn }
    requires other { IsSeat book.now other.old.pass other.old.arrays.items other.old.txn }
    ensures one { OnOk result (IsSeatThen book.now one.old.pass one.new.pass one.new.arrays.items one.new.txn) }
    ensures other { OnOk result
        (IsSeatThen book.now other.old.pass other.new.pass other.new.arrays.items other.new.txn) }
{
    let line = by_session(rt, alloc, call, book, one, other)?;
    text.push_str(line.as_str())?;
    Ok(())
}

fn by_session<K: KvStore, R: Wait>(
    rt: &R,
    alloc: Global,
    call: &Value,
    book: &TurnBook<State<K>>,
    one: &mut Seat<K>,
    other: &mut Seat<K>,
) -> Result<String, Fault>
    requires mounts { TakesBoth book.now.fixed.store.names }
    requires one { IsSeat book.now one.old.pass one.old.arrays.items one.old.txn }
    requires other { IsSeat book.now other.old.pass other.old.arrays.items other.old.txn }
    ensures one { OnOk result (IsSeatThen book.now one.old.pass one.new.pass one.new.arrays.items one.new.txn) }
    ensures other { OnOk result
        (IsSeatThen book.now other.old.pass other.new.pass other.new.arrays.items other.new.txn) }
{
    match number_or(call, "by", 0)? {
        0 => answer(rt, alloc, call, book, one, &OpenGate),
        1 => answer(rt, alloc, call, book, other, &OpenGate),
        _ => Err(Fault::Line),
    }
}
