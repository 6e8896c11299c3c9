// Workers: each has some of the sessions.
ghost use Rattle.std.specs.Prelude.{◌≡◌, ◌≤◌, ◌<◌, ◌+◌, ◌++◌, ◌∷◌, ℕ, [], length, map, vec_len, vec_capacity, All, IfOk};
ghost use Rattle.indexmap.specs.IndexMap.{get_by_text};
ghost use Rattle.session_runs.specs.Session.{session_with};
ghost use Rattle.session_workers.specs.Workers.{IsFresh, AreDealt, with_session};
ghost use Rattle.state_laws.specs.Agreement.{Opening};
ghost use Rattle.turn_book.specs.Passes.{BookView, AreNew};

use kv_face::KvStore;
use session_runs::Session;
use shared_state::State;
use std::alloc::{AllocError, Global};
use turn_book::Pass;

/// The sessions of a worker.
#[derive(Drop)]
pub(crate) struct Worker<K: KvStore> {
    pub sessions: Vec<Session<K>>,
}

/// So many workers, each with room for so many sessions.
pub(crate) fn workers<K: KvStore>(
    alloc: Global,
    count: usize,
    room: usize,
) -> Result<Vec<Worker<K>>, AllocError>
    ensures count { IfOk result (λ row. length row.items ≡ count) }
    ensures rooms { IfOk result (λ row. All (λ w. (w.sessions.items ≡ [])
        × (room ≤ vec_capacity w.sessions)) row.items) }
{
    let mut row = Vec::with_capacity(alloc, count)?;
    for _place in 0..count {
        row.push_reserved(idle_worker(alloc, room)?);
    }
    Ok(row)
}

fn idle_worker<K: KvStore>(alloc: Global, room: usize) -> Result<Worker<K>, AllocError>
    ensures { IfOk result (λ w. (w.sessions.items ≡ []) × (room ≤ vec_capacity w.sessions)) }
{
    Ok(Worker {
        sessions: Vec::with_capacity(alloc, room)?,
    })
}

/// Gives session i, which has pass i, to worker i modulo the number of those in front; the last `behind` sessions to the last worker of all.
pub(crate) fn deal<K: KvStore>(
    alloc: Global,
    passes: Vec<Pass<State<K>>>,
    row: &mut [Worker<K>],
    front: usize,
    behind: usize,
)
    requires some { 0 < front }
    requires front { front ≤ length row.old }
    requires rooms { All (λ w. (w.sessions.items ≡ []) × (length passes.items ≤ vec_capacity w.sessions)) row.old }
    ensures count { length row.new ≡ length row.old }
    ensures dealt { (book : BookView Opening) → book.passes ≡ length passes.items → AreNew book passes.items
        → AreDealt (IsFresh book) (map (λ w. map (λ s.
        session_with s.pass (get_by_text s.names) s.txn s.log.items s.ended) w.sessions.items) row.new)
        (length passes.items) }
{
    let ahead = passes.len().saturating_sub(behind);
    let mut next = 0;
    for pass in passes {
        let place = place_of(pass.number() as usize, ahead, next, row.len());
        add(row, place, Session::new(alloc, pass));
        next = place_behind(next, front);
    }
}

// The place of the worker for the session of this number: the next one, or the last where the session isn't among those ahead.
fn place_of(number: usize, ahead: usize, next: usize, count: usize) -> usize
    requires { next < count }
    ensures { result < count }
{
    if number < ahead { next } else { count - 1 }
}

// The place behind this one, or the first behind the last.
fn place_behind(place: usize, count: usize) -> usize
    requires { place < count }
    ensures { result < count }
{
    if place + 1 < count { place + 1 } else { 0 }
}

// Gives a session to the worker at a place.
fn add<K: KvStore>(row: &mut [Worker<K>], place: usize, session: Session<K>)
    requires place { place < length row.old }
    requires room { All (λ w. length w.sessions.items < vec_capacity w.sessions) row.old }
    ensures count { length row.new ≡ length row.old }
    ensures added { (map (λ w. map (λ s. session_with s.pass
        (get_by_text s.names) s.txn s.log.items s.ended) w.sessions.items) row.new)
        ≡ with_session place (session_with session.pass
        (get_by_text session.names) session.txn session.log.items session.ended) (map (λ w.
        map (λ s. session_with s.pass (get_by_text s.names) s.txn s.log.items s.ended) w.sessions.items) row.old) }
    ensures rooms { (n room : ℕ) → All (λ w. (length w.sessions.items ≤ n) × (room ≤ vec_capacity w.sessions)) row.old
        → All (λ w. (length w.sessions.items ≤ n + 1) × (room ≤ vec_capacity w.sessions)) row.new }
{
    take_on(&mut row[place], session);
}

fn take_on<K: KvStore>(worker: &mut Worker<K>, session: Session<K>)
    requires { length worker.old.sessions.items < vec_capacity worker.old.sessions }
    ensures sessions { worker.new.sessions.items ≡ worker.old.sessions.items ++ session ∷ [] }
    ensures room { vec_capacity worker.new.sessions ≡ vec_capacity worker.old.sessions }
{
    worker.sessions.push_reserved(session);
}
