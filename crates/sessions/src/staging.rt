// Writes.
ghost use Rattle.std.specs.Prelude.{◌≡◌, ◌≢◌, ℕ, Ok, None, Some, All, length};
ghost use Rattle.std.specs.List.{AllByRecursion};
ghost use Rattle.session_turns.specs.declared.Body.TheVariants as printed;
ghost use Rattle.cells.specs.Numbers.{IsWord};
ghost use Rattle.history.specs.Acts.{stages, without, act_of};
ghost use Rattle.history.specs.Bound.{AreKnownNames};
ghost use Rattle.history.specs.History.{History};
ghost use Rattle.history.specs.Lines.{Line, writing};
ghost use Rattle.history.specs.Refs.{HasKnownRefs};
ghost use Rattle.history.specs.Sessions.{Names as NamesOf};
ghost use Rattle.history.specs.Viewing.{cell_fault};
ghost use Rattle.index_transform.specs.Cells.{count_answer};
ghost use Rattle.indexmap.specs.IndexMap.{get_by_text};
ghost use Rattle.session_turns.specs.Changes.{changes_of};
ghost use Rattle.session_turns.specs.Numbers.{values_of};
ghost use Rattle.serde_json.specs.View.{view as data_in};
ghost use Rattle.session_turns.specs.Failures.{TellsFailures};
ghost use Rattle.session_turns.specs.Turns.{IsRested, HasPassed, added_by};
ghost use Rattle.sessions.specs.Caused.{IsCausedBy};
ghost use Rattle.sessions.specs.Commits.{HasSoundTxn};
ghost use Rattle.session_turns.specs.Standing.{session_state, transaction_in, AreViews};
ghost use Rattle.session_turns.specs.Told.{IsToldAlone, IsToldBy};
ghost use Rattle.stack_driver.specs.Conditions.{IsView};
ghost use Rattle.stack_driver.specs.Views.{look_of};
ghost use Rattle.session_turns.specs.Agreement.{Opening};
ghost use Rattle.step_forms.specs.Given.{IsGiven};
ghost use Rattle.session_turns.specs.Conditions.{IsTxnIn, MayUse};
ghost use Rattle.session_turns.specs.Txn.{transaction_of};

use crate::writing::{unwritten, write_alone};
use kv_face::KvStore;
use serde_json::Value;
use session_turns::{Around, Body, Gate, Names, State, Txn, Worded, taken_write};
use std::alloc::Global;
use std::sync::Wait;
use step_forms::Step;
use turn_book::Pass;

/// Writes values to a view: they are staged in the transaction that stands, and are a transaction of their own where none does.
pub fn write<K: KvStore, R: Wait, G: Gate>(
    around: &Around<K, R, G>,
    pass: &mut Pass<State<K>>,
    names: &Names,
    line: u64,
    txn: &mut Option<Txn>,
    name: &str,
    steps: &[Step],
    values: Value,
) -> Body
    requires pass { IsRested around.now.book.now pass.old }
    requires given { All IsGiven steps.now }
    requires views { AreViews (get_by_text names.now) }
    requires known { AreKnownNames pass.old.seen (get_by_text names.now) }
    requires txn { HasSoundTxn around.now.book.now.fixed pass.old.seen txn.old }
    ensures told { IsToldBy around.now.book.now pass.old pass.new
        (session_state (get_by_text names.now) (length pass.old.seen) txn.old) line
        (writing name.now (changes_of None steps.now) (values_of (data_in values))) (get_by_text names.now)
        (transaction_in txn.new) result }
    ensures caused { IsCausedBy around.now.book.now pass.old pass.new
        (session_state (get_by_text names.now) (length pass.old.seen) txn.old) line
        (writing name.now (changes_of None steps.now) (values_of (data_in values))) (get_by_text names.now)
        (transaction_in txn.new) result }
    ensures failures { TellsFailures (added_by pass.old pass.new) result }
    ensures passed { HasPassed around.now.book.now pass.old pass.new }
    ensures txn { result ≢ printed.Memory → HasSoundTxn around.now.book.now.fixed pass.new.seen txn.new }
{
    match txn {
        Some(t) => stage(around.alloc, names, t, name, steps, values),
        None => write_alone(around, pass, names, line, name, steps, values),
    }
}

// Stages values in a transaction. No turn is taken.
fn stage(
    alloc: Global,
    names: &Names,
    t: &mut Txn,
    name: &str,
    steps: &[Step],
    values: Value,
) -> Body
    requires given { All IsGiven steps.now }
    requires views { AreViews (get_by_text names.now) }
    requires txn { (opening : Opening) × (events : History) × IsTxnIn opening events t.old
        × AreKnownNames events (get_by_text names.now) }
    ensures told { (seen line : ℕ) → IsToldAlone (session_state (get_by_text names.now) seen (Some t.old)) line
        (writing name.now (changes_of None steps.now) (values_of (data_in values))) (get_by_text names.now)
        (Some (transaction_of t.new)) result }
    ensures txn { (opening : Opening) (events : History) → AreKnownNames events (get_by_text names.now)
        → HasSoundTxn opening events (Some t.old) → result ≢ printed.Memory → HasSoundTxn opening events (Some t.new) }
{
    match taken_write(alloc, names, name, steps, values) {
        Ok(w) => staged(alloc, t, w),
        Err(body) => body,
    }
}

fn staged(alloc: Global, t: &mut Txn, w: Worded) -> Body
    requires view { IsView w.view }
    requires may { MayUse w.view t.old }
    requires count { count_answer (look_of w.view).dims ≡ Ok (length w.words) }
    requires typed { AllByRecursion (IsWord (look_of w.view).dtype) w.words }
    ensures told { (names : NamesOf) (seen line : ℕ) (asked : Line)
        → act_of names (Some (transaction_of t.old)) asked
        ≡ without (cell_fault w.view) (Ok (stages (transaction_of t.old) w.view w.words))
        → IsToldAlone (session_state names seen (Some t.old)) line asked names (Some (transaction_of t.new)) result }
    ensures txn { (opening : Opening) (events : History) → HasKnownRefs events w.view
        → HasSoundTxn opening events (Some t.old) → result ≢ printed.Memory → HasSoundTxn opening events (Some t.new) }
{
    let Worded { view, words } = w;
    let cells = words.len() as u64;
    match t.write_owned(alloc, &view, words) {
        Ok(()) => Body::Staged { cells },
        Err(e) => unwritten(alloc, &view, e),
    }
}
