// Commits of one cell.
ghost use Rattle.std.specs.Prelude.{◌≡◌, Ok, IfOk, OnOk, IsTrue, codes, vec_len};
ghost use Rattle.std.specs.FinMap as finmap;
ghost use Rattle.bench.specs.Ready.{IsReady};
ghost use Rattle.cells.specs.Numbers.{IsWord};
ghost use Rattle.history.specs.History.{History};
ghost use Rattle.history.specs.Legal.{IsLegal};
ghost use Rattle.history.specs.Refs.{HasKnownRefs};
ghost use Rattle.index_transform.specs.Cells.{count_answer};
ghost use Rattle.session_turns.specs.Turns.{IsRested, HasPassed};
ghost use Rattle.stack_driver.specs.Conditions.{IsView};
ghost use Rattle.stack_driver.specs.Views.{look_of};
ghost use Rattle.state_laws.specs.Agreement.{Opening, TakesMount};
ghost use Rattle.state_laws.specs.Outline.{outline};
ghost use Rattle.turn_book.specs.Passes.{AreNew};

use crate::fault::Fault;
use crate::opening::opened;
use history::Mode;
use kv_face::{KvStore, MemoryKv};
use session_turns::{Around, OpenGate, State, Txn};
use stack_driver::{View, dtype, transform_of};
use std::alloc::Global;
use std::sync::Wait;
use turn_book::{Pass, TurnBook};

const CACHED: u64 = 1_048_576;

pub(crate) fn bench<R: Wait>(rt: &R, alloc: Global, before: u32, times: u32) -> Result<u64, Fault> {
    let store = MemoryKv::new(alloc, true);
    match State::behind_turn(alloc, store, CACHED, 1) {
        Ok((book, passes)) => by_pass(rt, alloc, &book, passes, before, times),
        Err(_) => Err(Fault::Memory),
    }
}

fn by_pass<K: KvStore, R: Wait>(
    rt: &R,
    alloc: Global,
    book: &TurnBook<State<K>>,
    mut passes: Vec<Pass<State<K>>>,
    before: u32,
    times: u32,
) -> Result<u64, Fault>
    requires one { book.now.passes ≡ 1 }
    requires count { vec_len passes ≡ 1 }
    requires passes { AreNew book.now passes.items }
    requires taken { TakesMount book.now.fixed.store.names (codes "memory") }
{
    let mut pass = passes.pop().unwrap();
    with_pass(rt, alloc, book, &mut pass, before, times)
}

fn with_pass<K: KvStore, R: Wait>(
    rt: &R,
    alloc: Global,
    book: &TurnBook<State<K>>,
    pass: &mut Pass<State<K>>,
    before: u32,
    times: u32,
) -> Result<u64, Fault>
    requires pass { IsRested book.now pass.old }
    requires taken { TakesMount book.now.fixed.store.names (codes "memory") }
{
    let view = opened(rt, alloc, book, pass)?;
    let last = commit_all(rt, alloc, book, pass, &view, 1, before.saturating_sub(1))?;
    commit_all(rt, alloc, book, pass, &view, last, times)
}

// Commits the cell so many times behind an event, and gives the number of the last one.
fn commit_all<K: KvStore, R: Wait>(
    rt: &R,
    alloc: Global,
    book: &TurnBook<State<K>>,
    pass: &mut Pass<State<K>>,
    view: &View,
    event: u64,
    count: u32,
) -> Result<u64, Fault>
    requires pass { IsRested book.now pass.old }
    requires view { IsView view.now }
    requires refs { HasKnownRefs pass.old.seen view.now }
    ensures { OnOk result (HasPassed book.now pass.old pass.new) }
{
    let mut last = event;
    for k in 0..count {
        last = commit_one(rt, alloc, book, pass, view, k)?;
    }
    Ok(last)
}

fn commit_one<K: KvStore, R: Wait>(
    rt: &R,
    alloc: Global,
    book: &TurnBook<State<K>>,
    pass: &mut Pass<State<K>>,
    view: &View,
    k: u32,
) -> Result<u64, Fault>
    requires pass { IsRested book.now pass.old }
    requires view { IsView view.now }
    requires refs { HasKnownRefs pass.old.seen view.now }
    ensures { OnOk result (HasPassed book.now pass.old pass.new) }
{
    let t = staged(alloc, view, k)?;
    committed(rt, alloc, book, pass, t)
}

// A transaction that writes a number to the cell.
fn staged(alloc: Global, view: &View, k: u32) -> Result<Txn, Fault>
    requires view { IsView view.now }
    requires known { (opening : Opening) × (events : History) × IsLegal finmap.empty (outline events)
        × HasKnownRefs events view.now }
    ensures { IfOk result (λ t. (opening : Opening) (events : History) → IsLegal finmap.empty (outline events)
        → HasKnownRefs events view.now → IsReady opening events t) }
{
    let to = dtype(view);
    let number = i128::from(k % 1_000_000);
    if !to.holds(number) || !is_cell(view) {
        return Err(Fault::Refused);
    }
    written(alloc, view, to.word(number))
}

// Whether the view has one cell.
fn is_cell(view: &View) -> bool
    ensures { IsTrue result → count_answer (look_of view.now).dims ≡ Ok 1 }
{
    match transform_of(view).count() {
        Ok(cells) => cells == 1,
        Err(_) => false,
    }
}

fn written(alloc: Global, view: &View, word: u64) -> Result<Txn, Fault>
    requires view { IsView view.now }
    requires known { (opening : Opening) × (events : History) × IsLegal finmap.empty (outline events)
        × HasKnownRefs events view.now }
    requires cell { count_answer (look_of view.now).dims ≡ Ok 1 }
    requires word { IsWord (look_of view.now).dtype word }
    ensures { IfOk result (λ t. (opening : Opening) (events : History) → IsLegal finmap.empty (outline events)
        → HasKnownRefs events view.now → IsReady opening events t) }
{
    let mode = Mode {
        atomic: false,
        repeatable_read: false,
    };
    let mut t = Txn::begin(alloc, 1, mode);
    match t.write(alloc, view, &[word]) {
        Ok(()) => Ok(t),
        Err(_) => Err(Fault::Refused),
    }
}

fn committed<K: KvStore, R: Wait>(
    rt: &R,
    alloc: Global,
    book: &TurnBook<State<K>>,
    pass: &mut Pass<State<K>>,
    t: Txn,
) -> Result<u64, Fault>
    requires pass { IsRested book.now pass.old }
    requires ready { IsReady book.now.fixed pass.old.seen t }
    ensures { OnOk result (HasPassed book.now pass.old pass.new) }
{
    let around = Around {
        alloc,
        rt,
        book,
        gate: &OpenGate,
    };
    match t.commit(&around, pass) {
        Ok(numbers) => match numbers.items() {
            [event] => Ok(*event),
            _ => Err(Fault::Refused),
        },
        Err(_) => Err(Fault::Refused),
    }
}
