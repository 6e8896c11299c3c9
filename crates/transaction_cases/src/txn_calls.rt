// Calls of a transaction: `begin` with its flags, `write` of numbers, `read` and `commit`.
ghost use Rattle.std.specs.Prelude.{◌≡◌, ℕ, Ok, Some, None, IfOk, OnOk, IsTrue};
ghost use Rattle.std.specs.FinMap as finmap;
ghost use Rattle.std.specs.List.{AllByRecursion};
ghost use Rattle.cells.specs.Numbers.{IsWord};
ghost use Rattle.history.specs.History.{History};
ghost use Rattle.history.specs.Legal.{IsLegal};
ghost use Rattle.history.specs.Refs.{HasKnownRefs, IsKnownRef};
ghost use Rattle.index_transform.specs.Cells.{count_answer};
ghost use Rattle.session_runs.specs.Turns.{IsRested, HasPassed};
ghost use Rattle.stack_driver.specs.Conditions.{IsView};
ghost use Rattle.stack_driver.specs.Views.{look_of};
ghost use Rattle.state_laws.specs.Agreement.{Opening};
ghost use Rattle.state_laws.specs.Outline.{outline};
ghost use Rattle.session_runs.specs.Conditions.{MayUse};
ghost use Rattle.transaction_cases.specs.Seats.{HasSound, IsSeat, IsSeatThen};
ghost use Rattle.turn_book.specs.Passes.{BookView};

use crate::seats::Seat;
use crate::views::view;
use case_lines::{Fault, is_true, items, member, number_or, told_line, word_of};
use cells::Dtype;
use history::Mode;
use kv_face::KvStore;
use serde_json::Value;
use session_runs::{Around, CommitError, CommitRefused, Gate, ReadError, State, Txn, WriteError};
use stack_driver::{View, dtype, transform_of};
use std::alloc::Global;
use std::sync::Wait;
use turn_book::{Pass, TurnBook};

pub(crate) fn begin(alloc: Global, v: &Value, txn: &mut Option<Txn>) -> Result<String, Fault>
    ensures { (opening : Opening) (events : History) → IsLegal finmap.empty (outline events)
        → OnOk result (HasSound opening events txn.new) }
{
    let mode = Mode {
        atomic: is_true(v, "atomic"),
        repeatable_read: is_true(v, "repeatable_read"),
    };
    let line = number_or(v, "line", 0)?;
    *txn = Some(Txn::begin(alloc, line, mode));
    told_line(alloc, &"begun")
}

pub(crate) fn write<K: KvStore>(
    alloc: Global,
    v: &Value,
    seat: &mut Seat<K>,
) -> Result<String, Fault>
    requires seat { (book : BookView Opening) × IsSeat book seat.old.pass seat.old.arrays.items seat.old.txn }
    ensures seat { (book : BookView Opening) → IsSeat book seat.old.pass seat.old.arrays.items seat.old.txn
        → OnOk result (IsSeatThen book seat.old.pass seat.new.pass seat.new.arrays.items seat.new.txn) }
{
    let view = view(alloc, v, &seat.arrays)?;
    match &mut seat.txn {
        Some(t) => stage(alloc, &view, items(member(v, "numbers")?)?, t),
        None => told_line(alloc, &"no transaction"),
    }
}

fn stage(alloc: Global, view: &View, numbers: &[Value], t: &mut Txn) -> Result<String, Fault>
    requires view { IsView view.now }
    requires may { MayUse view.now t.old }
    ensures { OnOk result ((opening : Opening) (events : History) → HasKnownRefs events view.now
        → HasSound opening events (Some t.old) → HasSound opening events (Some t.new)) }
{
    let words = words(alloc, dtype(view), numbers)?;
    stage_words(alloc, view, &words, t)
}

// The words of some numbers.
fn words(alloc: Global, dtype: Dtype, numbers: &[Value]) -> Result<Vec<u64>, Fault>
    ensures { IfOk result (λ words. AllByRecursion (IsWord dtype) words.items) }
{
    let mut words = Vec::with_capacity(alloc, numbers.len())?;
    for number in numbers {
        words.push(word_of(dtype, number)?)?;
    }
    Ok(words)
}

fn stage_words(alloc: Global, view: &View, words: &[u64], t: &mut Txn) -> Result<String, Fault>
    requires view { IsView view.now }
    requires may { MayUse view.now t.old }
    requires typed { AllByRecursion (IsWord (look_of view.now).dtype) words.now }
    ensures { OnOk result ((opening : Opening) (events : History) → HasKnownRefs events view.now
        → HasSound opening events (Some t.old) → HasSound opening events (Some t.new)) }
{
    if !are_all(view, words.len() as u64) {
        return Err(Fault::Line);
    }
    match t.write(alloc, view, words) {
        Ok(()) => told_line(alloc, &"staged"),
        Err(WriteError::View { fault }) => told_line(alloc, &fault),
        Err(WriteError::Memory) => Err(Fault::Memory),
    }
}

// Whether there are so many cells in the view, where it is finite.
fn are_all(view: &View, count: u64) -> bool
    ensures { IsTrue result → (n : ℕ) → count_answer (look_of view.now).dims ≡ Ok n → count ≡ n }
{
    match transform_of(view).count() {
        Ok(cells) => cells == count,
        Err(_) => true,
    }
}

pub(crate) fn read<K: KvStore, R: Wait, G: Gate>(
    rt: &R,
    alloc: Global,
    v: &Value,
    book: &TurnBook<State<K>>,
    seat: &mut Seat<K>,
    gate: &G,
) -> Result<String, Fault>
    requires seat { IsSeat book.now seat.old.pass seat.old.arrays.items seat.old.txn }
    ensures seat { OnOk result (IsSeatThen book.now seat.old.pass seat.new.pass seat.new.arrays.items seat.new.txn) }
{
    let view = view(alloc, v, &seat.arrays)?;
    match &mut seat.txn {
        Some(t) => read_view(rt, alloc, book, &mut seat.pass, &view, t, gate),
        None => told_line(alloc, &"no transaction"),
    }
}

fn read_view<K: KvStore, R: Wait, G: Gate>(
    rt: &R,
    alloc: Global,
    book: &TurnBook<State<K>>,
    pass: &mut Pass<State<K>>,
    view: &View,
    t: &mut Txn,
    gate: &G,
) -> Result<String, Fault>
    requires view { IsView view.now }
    requires refs { HasKnownRefs pass.old.seen view.now }
    requires pass { IsRested book.now pass.old }
    requires sound { HasSound book.now.fixed pass.old.seen (Some t.old) }
    ensures passed { HasPassed book.now pass.old pass.new }
    ensures sound { HasSound book.now.fixed pass.new.seen (Some t.new) }
{
    let around = Around {
        alloc,
        rt,
        book,
        gate,
    };
    match t.read(&around, pass, view) {
        Ok(words) => numbers_told(alloc, dtype(view), words.items()),
        Err(e) => unread(alloc, &e),
    }
}

// Why a view was not read.
fn unread(alloc: Global, e: &ReadError) -> Result<String, Fault> {
    match e {
        ReadError::View { fault } => told_line(alloc, fault),
        ReadError::StoreFailed { event } => told_line(alloc, &("store failed", event)),
        ReadError::Damaged { key, cause } => told_line(alloc, &("damaged", key.items(), cause)),
        ReadError::Shrunk { key, now } => told_line(alloc, &("shrunk", key.items(), now)),
        ReadError::Memory => Err(Fault::Memory),
    }
}

fn numbers_told(alloc: Global, dtype: Dtype, words: &[u64]) -> Result<String, Fault>
    requires typed { AllByRecursion (IsWord dtype) words.now }
{
    let numbers = numbers(alloc, dtype, words)?;
    told_line(alloc, &numbers)
}

fn numbers(alloc: Global, dtype: Dtype, words: &[u64]) -> Result<Vec<i128>, Fault>
    requires typed { AllByRecursion (IsWord dtype) words.now }
{
    let mut numbers = Vec::with_capacity(alloc, words.len())?;
    for word in words {
        numbers.push(dtype.number(*word))?;
    }
    Ok(numbers)
}

pub(crate) fn commit<K: KvStore, R: Wait, G: Gate>(
    rt: &R,
    alloc: Global,
    book: &TurnBook<State<K>>,
    seat: &mut Seat<K>,
    gate: &G,
) -> Result<String, Fault>
    requires seat { IsSeat book.now seat.old.pass seat.old.arrays.items seat.old.txn }
    ensures seat { OnOk result (IsSeatThen book.now seat.old.pass seat.new.pass seat.new.arrays.items seat.new.txn) }
{
    match seat.txn.take() {
        Some(t) => committed(rt, alloc, book, seat, t, gate),
        None => told_line(alloc, &"no transaction"),
    }
}

fn committed<K: KvStore, R: Wait, G: Gate>(
    rt: &R,
    alloc: Global,
    book: &TurnBook<State<K>>,
    seat: &mut Seat<K>,
    t: Txn,
    gate: &G,
) -> Result<String, Fault>
    requires rested { IsRested book.now seat.old.pass }
    requires known { AllByRecursion (IsKnownRef seat.old.pass.seen) seat.old.arrays.items }
    requires sound { HasSound book.now.fixed seat.old.pass.seen (Some t) }
    requires none { seat.old.txn ≡ None }
    ensures seat { OnOk result (IsSeatThen book.now seat.old.pass seat.new.pass seat.new.arrays.items seat.new.txn) }
{
    let around = Around {
        alloc,
        rt,
        book,
        gate,
    };
    match t.commit(&around, &mut seat.pass) {
        Ok(numbers) => told_line(alloc, &numbers.items()),
        Err(CommitError { why, left }) => {
            seat.txn = left;
            refused(alloc, &why)
        }
    }
}

// Why a commit was refused: keys as texts, generations and events as numbers.
fn refused(alloc: Global, why: &CommitRefused) -> Result<String, Fault> {
    match why {
        CommitRefused::Conflict { key, read, now } => {
            told_line(alloc, &("conflict", key.items(), read, now))
        }
        CommitRefused::Shrunk { key, now } => told_line(alloc, &("shrunk", key.items(), now)),
        CommitRefused::NotAtomic { keys } => told_line(alloc, &("not atomic", keys)),
        CommitRefused::Damaged { key, cause } => told_line(alloc, &("damaged", key.items(), cause)),
        CommitRefused::StoreFailed { event, done } => {
            told_line(alloc, &("store failed", event, done.items()))
        }
        CommitRefused::Memory => Err(Fault::Memory),
    }
}
