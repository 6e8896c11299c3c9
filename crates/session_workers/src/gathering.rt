// What the sessions of all workers leave.
ghost use Rattle.std.specs.Prelude.{◌≡◌, ◌≤◌, ◌<◌, ◌+◌, ◌++◌, ◌∷◌, ℕ, Bool, true, List, [], length, map, vec_capacity, All, Contains};
ghost use Rattle.std.specs.List.{AllByRecursion};
ghost use Rattle.answer_text.specs.declared.answer.Body.TheVariants as printed;
ghost use Rattle.indexmap.specs.IndexMap.{get_by_text};
ghost use Rattle.session_runs.specs.Session.{session_with};
ghost use Rattle.session_workers.specs.Workers.{HasRun, AreKept, IsFull, ends_in_want, numbers_in};
ghost use Rattle.state_laws.specs.Agreement.{Opening};
ghost use Rattle.turn_book.specs.Passes.{BookView};

use crate::dealing::Worker;
use answer_text::{Answer, Body};
use cells::List;
use kv_face::KvStore;
use session_runs::Session;
use shared_state::State;
use turn_book::Pass;

/// True only where no session ended without an answer to a line.
pub(crate) fn are_full<K: KvStore>(row: &[Worker<K>]) -> bool
    ensures { result ≡ true → All (λ w. All (λ s.
        IsFull (session_with s.pass (get_by_text s.names) s.txn s.log.items s.ended)) w.sessions.items) row.now }
{
    for worker in row {
        if !each_full(worker.sessions.as_slice()) {
            return false;
        }
    }
    true
}

fn each_full<K: KvStore>(sessions: &[Session<K>]) -> bool
    ensures { result ≡ true → All (λ s. IsFull
        (session_with s.pass (get_by_text s.names) s.txn s.log.items s.ended)) sessions.now }
{
    for session in sessions {
        if !is_full(session) {
            return false;
        }
    }
    true
}

fn is_full<K: KvStore>(session: &Session<K>) -> bool
    ensures { result ≡ true → IsFull (session_with session.now.pass
        (get_by_text session.now.names) session.now.txn session.now.log.items session.now.ended) }
{
    !session.ended() || ends_in_want(session.log.as_slice())
}

#[tactic(auto, using(crate::proofs::Kept::last_want))]
fn ends_in_want(log: &[Answer]) -> bool
    ensures { result ≡ true → ends_in_want log.now }
{
    if log.is_empty() {
        return false;
    }
    is_memory(&log[log.len() - 1].body)
}

fn is_memory(body: &Body) -> bool
    ensures { result ≡ true → body.now ≡ printed.Memory }
{
    match body {
        Body::Memory => true,
        _ => false,
    }
}

/// Takes the sessions of all workers apart: their passes, and each log at the place of its session's number.
pub(crate) fn gather<K: KvStore>(
    mut row: Vec<Worker<K>>,
    back: &mut Vec<Pass<State<K>>>,
    logs: &mut [List<Answer>],
)
    requires room { length back.old.items + length (numbers_in (map (λ w.
        map (λ s.
        session_with s.pass
        (get_by_text s.names) s.txn s.log.items s.ended) w.sessions.items) row.items)) ≤ vec_capacity back.old }
    requires small { AllByRecursion (AllByRecursion (λ s. s.pass.number < length logs.old)) (map (λ w.
        map (λ s. session_with s.pass (get_by_text s.names) s.txn s.log.items s.ended) w.sessions.items) row.items) }
    ensures all { (k : ℕ) → Contains (numbers_in (map (λ w.
        map (λ s. session_with s.pass (get_by_text s.names) s.txn s.log.items s.ended) w.sessions.items) row.items)) k
        → Contains (map (λ p. p.number) back.new.items) k }
    ensures count { length logs.new ≡ length logs.old }
    ensures kept { (book : BookView Opening) (mounts scripts : List (List ℕ)) (whole : Bool)
        → AllByRecursion (AllByRecursion (HasRun book mounts scripts whole)) (map (λ w.
        map (λ s. session_with s.pass (get_by_text s.names) s.txn s.log.items s.ended) w.sessions.items) row.items)
        → AreKept book mounts scripts whole back.old.items logs.old
        → AreKept book mounts scripts whole back.new.items logs.new }
{
    while let Some(worker) = row.pop() {
        gather_one(worker.sessions, back, logs);
    }
}

// The same of one worker's.
fn gather_one<K: KvStore>(
    mut sessions: Vec<Session<K>>,
    back: &mut Vec<Pass<State<K>>>,
    logs: &mut [List<Answer>],
)
    requires room { length back.old.items + length sessions.items ≤ vec_capacity back.old }
    requires small { AllByRecursion (λ s. s.pass.number < length logs.old) (map (λ s.
        session_with s.pass (get_by_text s.names) s.txn s.log.items s.ended) sessions.items) }
    ensures all { (k : ℕ) → Contains (map (λ s. s.pass.number) sessions.items) k
        → Contains (map (λ p. p.number) back.new.items) k }
    ensures stay { (k : ℕ) → Contains (map (λ p. p.number) back.old.items) k
        → Contains (map (λ p. p.number) back.new.items) k }
    ensures length_is { length back.new.items ≡ length back.old.items + length sessions.items }
    ensures room { vec_capacity back.new ≡ vec_capacity back.old }
    ensures count { length logs.new ≡ length logs.old }
    ensures kept { (book : BookView Opening) (mounts scripts : List (List ℕ)) (whole : Bool)
        → AllByRecursion (HasRun book mounts scripts whole) (map (λ s.
        session_with s.pass (get_by_text s.names) s.txn s.log.items s.ended) sessions.items)
        → AreKept book mounts scripts whole back.old.items logs.old
        → AreKept book mounts scripts whole back.new.items logs.new }
{
    while let Some(session) = sessions.pop() {
        take_apart(session, back, logs);
    }
}

// The same of one session.
fn take_apart<K: KvStore>(
    session: Session<K>,
    back: &mut Vec<Pass<State<K>>>,
    logs: &mut [List<Answer>],
)
    requires room { length back.old.items < vec_capacity back.old }
    requires small { session.pass.number < length logs.old }
    ensures back { back.new.items ≡ back.old.items ++ session.pass ∷ [] }
    ensures room { vec_capacity back.new ≡ vec_capacity back.old }
    ensures count { length logs.new ≡ length logs.old }
    ensures kept { (book : BookView Opening) (mounts scripts : List (List ℕ)) (whole : Bool)
        → HasRun book mounts scripts whole (session_with session.pass
        (get_by_text session.names) session.txn session.log.items session.ended)
        → AreKept book mounts scripts whole back.old.items logs.old
        → AreKept book mounts scripts whole back.new.items logs.new }
{
    let Session {
        pass,
        names: _,
        txn: _,
        log,
        ended: _,
    } = session;
    let place = pass.number() as usize;
    back.push_reserved(pass);
    logs[place] = List::wrap(log);
}
