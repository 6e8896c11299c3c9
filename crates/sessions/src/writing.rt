// Writes outside of a transaction.
ghost use Rattle.std.specs.Prelude.{◌≡◌, ℕ, Ok, Err, None, Some, IfOk, IfErr, OnOk, All, length};
ghost use Rattle.std.specs.FinMap as finmap;
ghost use Rattle.std.specs.List.{AllByRecursion};
ghost use Rattle.cells.specs.Numbers.{IsWord};
ghost use Rattle.session_turns.specs.CommitAnswers as commit_answers;
ghost use Rattle.history.specs.Acts.{Asked, without, write_act, act_of};
ghost use Rattle.history.specs.Bound.{AreKnownNames};
ghost use Rattle.history.specs.History.{History};
ghost use Rattle.history.specs.Legal.{IsLegal};
ghost use Rattle.history.specs.Lines.{Line, writing};
ghost use Rattle.history.specs.Refs.{HasKnownRefs};
ghost use Rattle.history.specs.Sessions.{Names as NamesOf};
ghost use Rattle.history.specs.Steps.{write_alone as alone};
ghost use Rattle.history.specs.Viewing.{cell_fault};
ghost use Rattle.index_transform.specs.Cells.{count_answer};
ghost use Rattle.indexmap.specs.IndexMap.{get_by_text};
ghost use Rattle.session_turns.specs.Bodies.{body_of};
ghost use Rattle.session_turns.specs.Changes.{changes_of};
ghost use Rattle.session_turns.specs.Numbers.{values_of};
ghost use Rattle.serde_json.specs.View.{view as data_in};
ghost use Rattle.session_turns.specs.Failures.{TellsFailures};
ghost use Rattle.session_turns.specs.Turns.{IsRested, HasPassed, added_by};
ghost use Rattle.sessions.specs.Caused.{IsCausedBy};
ghost use Rattle.sessions.specs.Commits.{HasSoundTxn};
ghost use Rattle.session_turns.specs.Standing.{session_state, AreViews};
ghost use Rattle.session_turns.specs.Told.{IsAnswerTo, IsToldBy};
ghost use Rattle.sessions.specs.Writes.{IsWrittenAs};
ghost use Rattle.stack_driver.specs.Conditions.{IsView};
ghost use Rattle.stack_driver.specs.Views.{look_of};
ghost use Rattle.session_turns.specs.Agreement.{Opening};
ghost use Rattle.session_turns.specs.Outline.{outline};
ghost use Rattle.step_forms.specs.Given.{IsGiven};
ghost use Rattle.session_turns.specs.Faults.{IsLocateFault};
ghost use Rattle.session_turns.specs.Txn.{transaction_of};
ghost use Rattle.turn_book.specs.Passes.{IsIdle};

use crate::committing::refused_body;
use history::Mode;
use kv_face::KvStore;
use serde_json::Value;
use session_turns::{
    Around, Body, CommitError, Gate, Names, State, Txn, Worded, WriteError, fault_body, taken_write,
};
use stack_driver::View;
use std::alloc::Global;
use std::sync::Wait;
use step_forms::Step;
use turn_book::Pass;

/// Writes values to a view where no transaction stands, as a transaction of its own.
pub(crate) fn write_alone<K: KvStore, R: Wait, G: Gate>(
    around: &Around<K, R, G>,
    pass: &mut Pass<State<K>>,
    names: &Names,
    line: u64,
    name: &str,
    steps: &[Step],
    values: Value,
) -> Body
    requires pass { IsRested around.now.book.now pass.old }
    requires given { All IsGiven steps.now }
    requires views { AreViews (get_by_text names.now) }
    requires known { AreKnownNames pass.old.seen (get_by_text names.now) }
    ensures told { IsToldBy around.now.book.now pass.old pass.new
        (session_state (get_by_text names.now) (length pass.old.seen) None) line
        (writing name.now (changes_of None steps.now) (values_of (data_in values)))
        (get_by_text names.now) None result }
    ensures caused { IsCausedBy around.now.book.now pass.old pass.new
        (session_state (get_by_text names.now) (length pass.old.seen) None) line
        (writing name.now (changes_of None steps.now) (values_of (data_in values)))
        (get_by_text names.now) None result }
    ensures failures { TellsFailures (added_by pass.old pass.new) result }
    ensures passed { HasPassed around.now.book.now pass.old pass.new }
{
    match taken_write(around.alloc, names, name, steps, values) {
        Ok(w) => written(around, pass, line, w),
        Err(body) => body,
    }
}

// Writes words in a transaction that is begun at this line, and commits it.
fn written<K: KvStore, R: Wait, G: Gate>(
    around: &Around<K, R, G>,
    pass: &mut Pass<State<K>>,
    line: u64,
    w: Worded,
) -> Body
    requires pass { IsRested around.now.book.now pass.old }
    requires view { IsView w.view }
    requires refs { HasKnownRefs pass.old.seen w.view }
    requires count { count_answer (look_of w.view).dims ≡ Ok (length w.words) }
    requires typed { AllByRecursion (IsWord (look_of w.view).dtype) w.words }
    ensures told { (names : NamesOf) (asked : Line)
        → act_of names None asked ≡ without (cell_fault w.view) (Ok (write_act None w.view w.words))
        → IsToldBy around.now.book.now pass.old pass.new (session_state names
        (length pass.old.seen) None) line asked names None result }
    ensures caused { (names : NamesOf) (asked : Line)
        → act_of names None asked ≡ without (cell_fault w.view) (Ok (write_act None w.view w.words))
        → IsCausedBy around.now.book.now pass.old pass.new (session_state names
        (length pass.old.seen) None) line asked names None result }
    ensures failures { TellsFailures (added_by pass.old pass.new) result }
    ensures passed { HasPassed around.now.book.now pass.old pass.new }
{
    let cells = w.words.len() as u64;
    match begun(around.alloc, line, w) {
        Ok(t) => committed(around, pass, t, cells),
        Err(body) => body,
    }
}

// A transaction of one write, or the answer to what refuses it.
fn begun(alloc: Global, line: u64, w: Worded) -> Result<Txn, Body>
    requires view { IsView w.view }
    requires refs { (opening : Opening) × (events : History) × IsLegal finmap.empty (outline events)
        × HasKnownRefs events w.view }
    requires count { count_answer (look_of w.view).dims ≡ Ok (length w.words) }
    requires typed { AllByRecursion (IsWord (look_of w.view).dtype) w.words }
    ensures alone { IfOk result (λ t. transaction_of t ≡ alone line w.view w.words) }
    ensures sound { IfOk result (λ t. (opening : Opening) (events : History) → IsLegal finmap.empty (outline events)
        → HasKnownRefs events w.view → HasSoundTxn opening events (Some t)) }
    ensures found { OnOk result (cell_fault w.view ≡ None) }
    ensures err { IfErr result (λ b. (next : Asked) → IsAnswerTo (without (cell_fault w.view) next) b) }
{
    let mode = Mode {
        atomic: false,
        repeatable_read: false,
    };
    let Worded { view, words } = w;
    let mut t = Txn::begin(alloc, line, mode);
    match t.write_owned(alloc, &view, words) {
        Ok(()) => Ok(t),
        Err(e) => Err(unwritten(alloc, &view, e)),
    }
}

/// The answer to a write whose words aren't staged.
pub(crate) fn unwritten(alloc: Global, v: &View, e: WriteError) -> Body
    requires count { (n : ℕ) × (count_answer (look_of v.now).dims ≡ Ok n) }
    requires fault { IsLocateFault v.now e }
    ensures answer { (next : Asked) → IsAnswerTo (without (cell_fault v.now) next) result }
    ensures memory { e ≡ WriteError.Memory → result ≡ Body.Memory }
{
    match e {
        WriteError::View { fault } => fault_body(alloc, v, fault),
        WriteError::Memory => Body::Memory,
    }
}

fn committed<K: KvStore, R: Wait, G: Gate>(
    around: &Around<K, R, G>,
    pass: &mut Pass<State<K>>,
    t: Txn,
    cells: u64,
) -> Body
    requires pass { IsIdle around.now.book.now pass.old }
    requires sound { HasSoundTxn around.now.book.now.fixed pass.old.seen (Some t) }
    ensures { IsWrittenAs around.now.book.now pass.old pass.new (transaction_of t) cells result }
{
    match t.commit(around, pass) {
        Ok(events) => Body::Written { cells, events },
        Err(e) => uncommitted(e),
    }
}

// The answer to a commit that is refused, whose transaction is over.
fn uncommitted(e: CommitError) -> Body
    ensures { result ≡ body_of (commit_answers.body_of (Err e.why)) }
{
    refused_body(e.why)
}
