// A run of scripts.
ghost use Rattle.std.specs.Prelude.{◌≡◌, ◌≤◌, ◌<◌, ◌^◌, ℕ, List, [], length, map, true, false, vec_capacity, All, IfOk, IfErr};
ghost use Rattle.std.specs.List.{AllByRecursion};
ghost use Rattle.history.specs.Legal.{IsMount};
ghost use Rattle.indexmap.specs.IndexMap.{get_by_text};
ghost use Rattle.session_runs.specs.Session.{session_with, HasMounts};
ghost use Rattle.session_workers.specs.Workers.{AreSessionLogs, AreWhole, AreDealt, IsFresh, HasRun};
ghost use Rattle.state_laws.specs.Agreement.{Opening, Agrees, TakesMount};
ghost use Rattle.turn_book.specs.Passes.{BookView, AreNew};

use crate::dealing::{Worker, deal, workers};
use crate::gathering::{are_full, gather};
use crate::working::work_in_turn;
use answer_text::Answer;
use cells::{List, Name};
use kv_face::KvStore;
use session_runs::Gate;
use shared_state::{State, StateRefused};
use std::alloc::{AllocError, Global};
use std::sync::Wait;
use std::thread::Threads;
use turn_book::{Pass, TurnBook};

/// What a run of scripts leaves: the state, and the log of each session.
#[derive(Drop)]
pub(crate) struct Ended<K: KvStore> {
    pub state: State<K>,
    pub logs: Vec<List<Answer>>,
    /// True only where each session answered all its lines, or those up to an answer that memory was wanting.
    pub whole: bool,
}

/// Runs each script in a session of its own, over one state that begins over a store with a cache of at most so many cells. The last `behind`
/// sessions start once all others were joined, on a worker of their own. Session i runs on worker i modulo their number, and a worker runs its
/// sessions one after the other; no clause speaks of workers.
///
/// # Errors
/// There was no memory before the first session was started. The store comes back.
pub(crate) fn run_scripts<K: KvStore + Send, R: Threads + Wait + Sync, G: Gate + Sync>(
    alloc: Global,
    rt: &R,
    store: K,
    limit: u64,
    mounts: &[Name],
    scripts: &[Vec<u8>],
    threads: usize,
    behind: usize,
    gate: &G,
) -> Result<Ended<K>, StateRefused<K>>
    requires limit { limit ≤ 2 ^ 27 }
    requires threads { 0 < threads }
    requires some { 0 < length scripts.now }
    requires few { length scripts.now < 2 ^ 32 }
    requires short { All (λ s. length s.items < 2 ^ 62) scripts.now }
    requires valid { AllByRecursion IsMount mounts.now }
    requires taken { AllByRecursion (TakesMount ((K.seen store).names)) mounts.now }
    ensures logs { IfOk result (λ r. AreSessionLogs (record { store = K.seen store; limit = limit }) mounts.now
        (map (λ v. v.items) scripts.now) r.state.log.events r.logs.items) }
    // Each line that isn't blank has its answer, up to one that is want of memory.
    ensures whole { IfOk result (λ r. r.whole ≡ true
        → AreWhole mounts.now (map (λ v. v.items) scripts.now) r.logs.items) }
    ensures agrees { IfOk result (λ r. Agrees (record { store = K.seen store; limit = limit })
        (K.seen r.state.store) r.state.log) }
    ensures handed_back { IfErr result (λ refused. refused.store ≡ store) }
{
    let front = threads.min(scripts.len());
    let Ok(row) = workers(alloc, front + behind.min(1), scripts.len()) else {
        return Err(StateRefused { store });
    };
    let Ok(back) = Vec::with_capacity(alloc, scripts.len()) else {
        return Err(StateRefused { store });
    };
    let Ok(logs) = empty_logs(alloc, scripts.len()) else {
        return Err(StateRefused { store });
    };
    let (book, passes) = State::behind_turn(alloc, store, limit, scripts.len() as u32)?;
    let row = dealt(alloc, passes, row, front, behind);
    let row = worked(alloc, rt, &book, mounts, scripts, row, front, gate);
    Ok(gathered(book, row, back, logs))
}

// Deals the sessions to the workers.
fn dealt<K: KvStore>(
    alloc: Global,
    passes: Vec<Pass<State<K>>>,
    mut row: Vec<Worker<K>>,
    front: usize,
    behind: usize,
) -> Vec<Worker<K>>
    requires some { 0 < front }
    requires front { front ≤ length row.items }
    requires rooms { All (λ w. (w.sessions.items ≡ []) × (length passes.items ≤ vec_capacity w.sessions)) row.items }
    ensures count { length result.items ≡ length row.items }
    ensures dealt { (book : BookView Opening) → book.passes ≡ length passes.items → AreNew book passes.items
        → AreDealt (IsFresh book) (map (λ w. map (λ s.
        session_with s.pass (get_by_text s.names) s.txn s.log.items s.ended) w.sessions.items) result.items)
        (length passes.items) }
{
    deal(alloc, passes, row.as_mut_slice(), front, behind);
    row
}

// Lets the workers work, those in front before the others.
fn worked<K: KvStore + Send, R: Threads + Wait + Sync, G: Gate + Sync>(
    alloc: Global,
    rt: &R,
    book: &TurnBook<State<K>>,
    mounts: &[Name],
    scripts: &[Vec<u8>],
    mut row: Vec<Worker<K>>,
    front: usize,
    gate: &G,
) -> Vec<Worker<K>>
    requires some { 0 < front }
    requires front { front ≤ length row.items }
    requires dealt { AreDealt (IsFresh book.now) (map (λ w.
        map (λ s. session_with s.pass (get_by_text s.names) s.txn s.log.items s.ended) w.sessions.items) row.items)
        (length scripts.now) }
    requires mounts { HasMounts book.now mounts.now }
    requires passes { book.now.passes ≡ length scripts.now }
    requires short { All (λ s. length s.items < 2 ^ 62) scripts.now }
    ensures { AreDealt (HasRun book.now mounts.now (map (λ v. v.items) scripts.now) false) (map (λ w.
        map (λ s. session_with s.pass (get_by_text s.names) s.txn s.log.items s.ended) w.sessions.items) result.items)
        (length scripts.now) }
{
    work_in_turn(
        alloc,
        rt,
        book,
        mounts,
        scripts,
        row.as_mut_slice(),
        front,
        gate,
    );
    row
}

// Takes the sessions apart and closes the book.
fn gathered<K: KvStore>(
    book: TurnBook<State<K>>,
    row: Vec<Worker<K>>,
    mut back: Vec<Pass<State<K>>>,
    mut logs: Vec<List<Answer>>,
) -> Ended<K>
    requires empty { back.items ≡ [] }
    requires room { length logs.items ≤ vec_capacity back }
    requires passes { book.passes ≡ length logs.items }
    requires ran { (mounts scripts : List (List ℕ))
        × AreDealt (HasRun book mounts scripts false) (map (λ w.
        map (λ s. session_with s.pass (get_by_text s.names) s.txn s.log.items s.ended) w.sessions.items) row.items)
        (length scripts) × (length scripts ≡ length logs.items) }
    ensures agrees { Agrees book.fixed (K.seen result.state.store) result.state.log }
    ensures logs { (mounts scripts : List (List ℕ))
        → AreDealt (HasRun book mounts scripts false) (map (λ w.
        map (λ s. session_with s.pass (get_by_text s.names) s.txn s.log.items s.ended) w.sessions.items) row.items)
        (length scripts) → length scripts ≡ length logs.items
        → AreSessionLogs book.fixed mounts scripts result.state.log.events result.logs.items }
    ensures whole { (mounts scripts : List (List ℕ))
        → AreDealt (HasRun book mounts scripts false) (map (λ w.
        map (λ s. session_with s.pass (get_by_text s.names) s.txn s.log.items s.ended) w.sessions.items) row.items)
        (length scripts) → length scripts ≡ length logs.items
        → result.whole ≡ true → AreWhole mounts scripts result.logs.items }
{
    let whole = are_full(row.as_slice());
    gather(row, &mut back, logs.as_mut_slice());
    Ended {
        state: book.close(back),
        logs,
        whole,
    }
}

fn empty_logs(alloc: Global, count: usize) -> Result<Vec<List<Answer>>, AllocError>
    ensures { IfOk result (λ logs. length logs.items ≡ count) }
{
    let mut logs = Vec::with_capacity(alloc, count)?;
    for _place in 0..count {
        logs.push_reserved(List::wrap(Vec::new(alloc)));
    }
    Ok(logs)
}
