// Workers at work.
ghost use Rattle.std.specs.Prelude.{◌≡◌, ◌≤◌, ◌<◌, ◌^◌, ℕ, length, map, All, slice_index_or};
ghost use Rattle.std.specs.List.{AllByRecursion};
ghost use Rattle.indexmap.specs.IndexMap.{get_by_text};
ghost use Rattle.session_runs.specs.Session.{session_with, HasMounts};
ghost use Rattle.session_workers.specs.Workers.{IsFresh, IsWorked, AreWorked};

use crate::dealing::Worker;
use cells::Name;
use kv_face::KvStore;
use session_runs::{Around, Gate, Session, run_script};
use shared_state::State;
use std::alloc::Global;
use std::sync::Wait;
use std::thread;
use std::thread::Threads;
use turn_book::TurnBook;

/// Lets the workers in front work, and the others once these were joined.
pub(crate) fn work_in_turn<K: KvStore + Send, R: Threads + Wait + Sync, G: Gate + Sync>(
    alloc: Global,
    rt: &R,
    book: &TurnBook<State<K>>,
    mounts: &[Name],
    scripts: &[Vec<u8>],
    row: &mut [Worker<K>],
    front: usize,
    gate: &G,
)
    requires some { 0 < front }
    requires front { front ≤ length row.old }
    requires fresh { All (λ w. AllByRecursion (IsFresh book.now) (map (λ s.
        session_with s.pass (get_by_text s.names) s.txn s.log.items s.ended) w.sessions.items)) row.old }
    requires mounts { HasMounts book.now mounts.now }
    requires passes { book.now.passes ≡ length scripts.now }
    requires short { All (λ s. length s.items < 2 ^ 62) scripts.now }
    ensures count { length row.new ≡ length row.old }
    ensures worked { (i : ℕ) (d : _) → i < length row.old
        → AreWorked book.now mounts.now (map (λ v. v.items) scripts.now) (map (λ s.
        session_with s.pass (get_by_text s.names) s.txn s.log.items s.ended)
        (slice_index_or row.old i d).sessions.items) (map (λ s.
        session_with s.pass (get_by_text s.names) s.txn s.log.items s.ended)
        (slice_index_or row.new i d).sessions.items) }
{
    let (first, others) = row.split_at_mut(front);
    work(alloc, rt, book, mounts, scripts, first, front, gate);
    work(alloc, rt, book, mounts, scripts, others, 1, gate);
}

// Runs each worker's sessions one after the other, each with the script of its number; the workers run beside each other.
fn work<K: KvStore + Send, R: Threads + Wait + Sync, G: Gate + Sync>(
    alloc: Global,
    rt: &R,
    book: &TurnBook<State<K>>,
    mounts: &[Name],
    scripts: &[Vec<u8>],
    row: &mut [Worker<K>],
    threads: usize,
    gate: &G,
)
    requires threads { 0 < threads }
    requires fresh { All (λ w. AllByRecursion (IsFresh book.now) (map (λ s.
        session_with s.pass (get_by_text s.names) s.txn s.log.items s.ended) w.sessions.items)) row.old }
    requires mounts { HasMounts book.now mounts.now }
    requires passes { book.now.passes ≡ length scripts.now }
    requires short { All (λ s. length s.items < 2 ^ 62) scripts.now }
    ensures count { length row.new ≡ length row.old }
    ensures worked { (i : ℕ) (d : _) → i < length row.old
        → AreWorked book.now mounts.now (map (λ v. v.items) scripts.now) (map (λ s.
        session_with s.pass (get_by_text s.names) s.txn s.log.items s.ended)
        (slice_index_or row.old i d).sessions.items) (map (λ s.
        session_with s.pass (get_by_text s.names) s.txn s.log.items s.ended)
        (slice_index_or row.new i d).sessions.items) }
{
    thread::for_each_mut(
        rt,
        row,
        threads,
        &|_, worker: &mut Worker<K>|
            requires fresh { AllByRecursion (IsFresh book.now) (map (λ s.
                session_with s.pass (get_by_text s.names) s.txn s.log.items s.ended) worker.old.sessions.items) }
            requires mounts { HasMounts book.now mounts.now }
            requires passes { book.now.passes ≡ length scripts.now }
            requires short { All (λ s. length s.items < 2 ^ 62) scripts.now }
            ensures { AreWorked book.entry.now mounts.entry.now (map (λ v. v.items) scripts.entry.now) (map (λ s.
                session_with s.pass (get_by_text s.names) s.txn s.log.items s.ended) worker.old.sessions.items)
                (map (λ s.
                session_with s.pass (get_by_text s.names) s.txn s.log.items s.ended) worker.new.sessions.items) }
        {
            run_worker(alloc, rt, book, mounts, scripts, worker, gate);
        },
    );
}

fn run_worker<K: KvStore, R: Wait, G: Gate>(
    alloc: Global,
    rt: &R,
    book: &TurnBook<State<K>>,
    mounts: &[Name],
    scripts: &[Vec<u8>],
    worker: &mut Worker<K>,
    gate: &G,
)
    requires fresh { AllByRecursion (IsFresh book.now) (map (λ s.
        session_with s.pass (get_by_text s.names) s.txn s.log.items s.ended) worker.old.sessions.items) }
    requires mounts { HasMounts book.now mounts.now }
    requires passes { book.now.passes ≡ length scripts.now }
    requires short { All (λ s. length s.items < 2 ^ 62) scripts.now }
    ensures { AreWorked book.now mounts.now (map (λ v. v.items) scripts.now) (map (λ s.
        session_with s.pass (get_by_text s.names) s.txn s.log.items s.ended) worker.old.sessions.items) (map (λ s.
        session_with s.pass (get_by_text s.names) s.txn s.log.items s.ended) worker.new.sessions.items) }
{
    run_each(
        alloc,
        rt,
        book,
        mounts,
        scripts,
        worker.sessions.as_mut_slice(),
        gate,
    );
}

fn run_each<K: KvStore, R: Wait, G: Gate>(
    alloc: Global,
    rt: &R,
    book: &TurnBook<State<K>>,
    mounts: &[Name],
    scripts: &[Vec<u8>],
    sessions: &mut [Session<K>],
    gate: &G,
)
    requires fresh { AllByRecursion (IsFresh book.now) (map (λ s.
        session_with s.pass (get_by_text s.names) s.txn s.log.items s.ended) sessions.old) }
    requires mounts { HasMounts book.now mounts.now }
    requires passes { book.now.passes ≡ length scripts.now }
    requires short { All (λ s. length s.items < 2 ^ 62) scripts.now }
    ensures { AreWorked book.now mounts.now (map (λ v. v.items) scripts.now) (map (λ s.
        session_with s.pass (get_by_text s.names) s.txn s.log.items s.ended) sessions.old) (map (λ s.
        session_with s.pass (get_by_text s.names) s.txn s.log.items s.ended) sessions.new) }
{
    for place in 0..sessions.len() {
        run_one(alloc, rt, book, mounts, scripts, &mut sessions[place], gate);
    }
}

fn run_one<K: KvStore, R: Wait, G: Gate>(
    alloc: Global,
    rt: &R,
    book: &TurnBook<State<K>>,
    mounts: &[Name],
    scripts: &[Vec<u8>],
    session: &mut Session<K>,
    gate: &G,
)
    requires fresh { IsFresh book.now (session_with session.old.pass
        (get_by_text session.old.names) session.old.txn session.old.log.items session.old.ended) }
    requires mounts { HasMounts book.now mounts.now }
    requires passes { book.now.passes ≡ length scripts.now }
    requires short { All (λ s. length s.items < 2 ^ 62) scripts.now }
    ensures { IsWorked book.now mounts.now (map (λ v.
        v.items) scripts.now) (session_with session.old.pass
        (get_by_text session.old.names) session.old.txn session.old.log.items session.old.ended)
        (session_with session.new.pass
        (get_by_text session.new.names) session.new.txn session.new.log.items session.new.ended) }
{
    let place = session.pass.number() as usize;
    let around = Around {
        alloc,
        rt,
        book,
        gate,
    };
    run_script(&around, mounts, session, scripts[place].as_slice());
}
