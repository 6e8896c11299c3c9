// A session.
ghost use Rattle.std.specs.Prelude.{◌≡◌, ℕ, ◌+◌, List, [], ◌∷◌, ◌++◌, length, false, true, Option, Some, None, OnOk, OnErr};
ghost use Rattle.session_openings.specs.declared.Body.{Body as BodyOf};
ghost use Rattle.session_openings.specs.declared.Body.TheVariants as printed;
ghost use Rattle.history.specs.Lines.{Line};
ghost use Rattle.session_openings.specs.Meanings.{line_of_bytes};
ghost use Rattle.indexmap.specs.IndexMap.{get_by_text};
ghost use Rattle.session_runs.specs.Session.{HasMounts, MayGoOn, IsSessionOn, session_with};
ghost use Rattle.session_openings.specs.Failures.{TellsFailures};
ghost use Rattle.session_openings.specs.Turns.{HasPassed, IsRested, added_by};
ghost use Rattle.session_openings.specs.Agreement.{Opening};
ghost use Rattle.turn_book.specs.Passes.{BookView};

use crate::answering::answered;
use cells::Name;
use indexmap::IndexMap;
use kv_face::KvStore;
use session_openings::{Answer, Around, Body, Gate, Names, State, Txn};
use std::alloc::{AllocError, Global};
use std::sync::Wait;
use turn_book::Pass;

/// A session: its pass over a book, the views that its names are bound to, the transaction that stands, and what it has answered.
#[derive(Drop)]
pub struct Session<K: KvStore> {
    pub pass: Pass<State<K>>,
    pub names: Names,
    pub txn: Option<Txn>,
    pub log: Vec<Answer>,
    /// Whether memory was wanting, so that no further line is answered.
    pub ended: bool,
}

impl<K: KvStore> Session<K> {
    /// A session before its first line. It takes no memory.
    pub fn new(alloc: Global, pass: Pass<State<K>>) -> Session<K>
        ensures pass { result.pass ≡ pass }
        ensures log { result.log.items ≡ [] }
        ensures going { result.ended ≡ false }
        ensures on { (book : BookView Opening) → IsRested book pass → pass.seen ≡ []
            → IsSessionOn book (session_with result.pass
            (get_by_text result.names) result.txn result.log.items result.ended) [] }
    {
        Session {
            pass,
            names: IndexMap::new(alloc),
            txn: None,
            log: Vec::new(alloc),
            ended: false,
        }
    }

    /// Answers a line that isn't blank, whose number is one more than that of the lines before it; these are the names of the mounts. One
    /// answer is added to the log, and no turn is held at return. Where the answer is want of memory the session has ended.
    ///
    /// # Errors
    /// There was no memory for the answer: none is added, nothing is done, and the session has ended. It is else as it was.
    pub fn step<R: Wait, G: Gate>(
        &mut self,
        around: &Around<K, R, G>,
        mounts: &[Name],
        line: u64,
        bytes: &[u8],
    ) -> Result<(), AllocError>
        requires going { self.old.ended ≡ false }
        requires on { MayGoOn around.now.book.now self.old.pass (get_by_text self.old.names) self.old.txn }
        requires mounts { HasMounts around.now.book.now mounts.now }
        ensures run { OnOk result ((lines : List (Option Line)) → line ≡ length lines + 1
            → IsSessionOn around.now.book.now (session_with self.old.pass
            (get_by_text self.old.names) self.old.txn self.old.log.items self.old.ended) lines
            → IsSessionOn around.now.book.now (session_with self.new.pass
            (get_by_text self.new.names) self.new.txn self.new.log.items self.new.ended)
            (lines ++ Some (line_of_bytes mounts.now bytes.now) ∷ [])) }
        ensures log { OnOk result ((body : BodyOf)
            × (self.new.log.items ≡ self.old.log.items ++ record { line = line; body = body } ∷ [])
            × (body ≡ printed.Memory → self.new.ended ≡ true) × (self.new.ended ≡ true → body ≡ printed.Memory)) }
        ensures failures { OnOk result ((body : BodyOf)
            × (self.new.log.items ≡ self.old.log.items ++ record { line = line; body = body } ∷ [])
            × TellsFailures (added_by self.old.pass self.new.pass) body) }
        ensures passed { HasPassed around.now.book.now self.old.pass self.new.pass }
        ensures on { self.new.ended ≡ false
            → MayGoOn around.now.book.now self.new.pass (get_by_text self.new.names) self.new.txn }
        ensures ended { OnErr result (self.new.ended ≡ true) }
        ensures same { OnErr result ((self.new.pass ≡ self.old.pass) × (self.new.log.items ≡ self.old.log.items)) }
        ensures names { OnErr result (get_by_text self.new.names ≡ get_by_text self.old.names) }
        ensures txn { OnErr result (self.new.txn ≡ self.old.txn) }
    {
        if self.log.reserve(1).is_err() {
            self.ended = true;
            return Err(AllocError);
        }
        around.gate.before(around.rt, self.pass.number(), line);
        let body = answered(
            around,
            &mut self.pass,
            &mut self.names,
            &mut self.txn,
            mounts,
            line,
            bytes,
        );
        self.ended = is_memory(&body);
        self.log.push_reserved(Answer { line, body });
        Ok(())
    }

    /// Whether the session has ended: no further line is answered. It has exactly behind an error of `step`, and behind an answer that is want
    /// of memory.
    pub fn ended(&self) -> bool
        ensures { result ≡ self.now.ended }
    {
        self.ended
    }

    /// The session's pass, and what it has answered. It takes no memory.
    pub fn into_parts(self) -> (Pass<State<K>>, Vec<Answer>)
        ensures pass { result.0 ≡ self.pass }
        ensures log { result.1.items ≡ self.log.items }
    {
        let Session {
            pass,
            names: _,
            txn: _,
            log,
            ended: _,
        } = self;
        (pass, log)
    }
}

fn is_memory(body: &Body) -> bool
    ensures is { result ≡ true → body.now ≡ printed.Memory }
    ensures no { body.now ≡ printed.Memory → result ≡ true }
{
    match body {
        Body::Memory => true,
        _ => false,
    }
}
