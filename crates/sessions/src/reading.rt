// Reads.
ghost use Rattle.std.specs.Prelude.{◌≡◌, Ok, None, Option, All, length};
ghost use Rattle.history.specs.Acts.{reads, without, act_of};
ghost use Rattle.history.specs.Bound.{AreKnownNames};
ghost use Rattle.history.specs.Lines.{Line, reading};
ghost use Rattle.history.specs.Refs.{HasKnownRefs};
ghost use Rattle.history.specs.Sessions.{Names as NamesOf};
ghost use Rattle.history.specs.Viewing.{cell_fault};
ghost use Rattle.index_transform.specs.Cells.{cells_of, count_answer};
ghost use Rattle.indexmap.specs.IndexMap.{get_by_text};
ghost use Rattle.session_turns.specs.Ranks.{HasRank};
ghost use Rattle.session_turns.specs.Form.{MayHaveFactors};
ghost use Rattle.session_turns.specs.Changes.{changes_of};
ghost use Rattle.session_turns.specs.Numbers.{downsampling_of};
ghost use Rattle.session_turns.specs.Failures.{TellsFailures};
ghost use Rattle.session_turns.specs.Turns.{IsRested, HasPassed, added_by};
ghost use Rattle.sessions.specs.Caused.{IsCausedBy};
ghost use Rattle.sessions.specs.Commits.{HasSoundTxn};
ghost use Rattle.sessions.specs.Reads.{IsAnsweredRead, IsReadTold, IsUnread, IsViewFault};
ghost use Rattle.session_turns.specs.Standing.{session_state, transaction_in, AreViews};
ghost use Rattle.stack_driver.specs.Conditions.{IsView};
ghost use Rattle.stack_driver.specs.Views.{look_of};
ghost use Rattle.step_forms.specs.Given.{IsGiven};
ghost use Rattle.session_turns.specs.Conditions.{IsTxnIn};
ghost use Rattle.turn_book.specs.Passes.{IsIdle};

use cells::List;
use history::Mode;
use kv_face::KvStore;
use session_turns::{
    Around, Body, DownWant, Gate, Names, ReadError, State, Txn, asked_read, damaged, fault_body,
    values_body,
};
use stack_driver::View;
use std::alloc::Global;
use std::sync::Wait;
use step_forms::Step;
use turn_book::Pass;

/// Reads the words of a view, and downsamples them where factors are given: in the transaction that stands, and as a transaction of its own
/// where none does.
pub fn read<K: KvStore, R: Wait, G: Gate>(
    around: &Around<K, R, G>,
    pass: &mut Pass<State<K>>,
    names: &Names,
    line: u64,
    txn: &mut Option<Txn>,
    name: &str,
    steps: &[Step],
    down: &Option<DownWant>,
) -> Body
    requires pass { IsRested around.now.book.now pass.old }
    requires given { All IsGiven steps.now }
    requires factors { MayHaveFactors down.now }
    requires views { AreViews (get_by_text names.now) }
    requires known { AreKnownNames pass.old.seen (get_by_text names.now) }
    requires txn { HasSoundTxn around.now.book.now.fixed pass.old.seen txn.old }
    ensures told { IsReadTold around.now.book.now pass.old pass.new (get_by_text names.now) txn.old txn.new line
        (reading name.now (changes_of None steps.now) (downsampling_of down.now)) result }
    ensures caused { IsCausedBy around.now.book.now pass.old pass.new
        (session_state (get_by_text names.now) (length pass.old.seen) txn.old) line
        (reading name.now (changes_of None steps.now) (downsampling_of down.now)) (get_by_text names.now)
        (transaction_in txn.new) result }
    ensures failures { TellsFailures (added_by pass.old pass.new) result }
    ensures passed { HasPassed around.now.book.now pass.old pass.new }
    ensures txn { HasSoundTxn around.now.book.now.fixed pass.new.seen txn.new }
{
    match asked_read(around.alloc, names, name, steps, down) {
        Ok(v) => answered(around, pass, line, txn, &v, down),
        Err(body) => body,
    }
}

// Reads a view, in the transaction that stands or in one of its own.
fn answered<K: KvStore, R: Wait, G: Gate>(
    around: &Around<K, R, G>,
    pass: &mut Pass<State<K>>,
    line: u64,
    txn: &mut Option<Txn>,
    v: &View,
    down: &Option<DownWant>,
) -> Body
    requires pass { IsRested around.now.book.now pass.old }
    requires view { IsView v.now }
    requires refs { HasKnownRefs pass.old.seen v.now }
    requires count { count_answer (look_of v.now).dims ≡ Ok (length (cells_of (look_of v.now).dims)) }
    requires factors { MayHaveFactors down.now }
    requires rank { HasRank down.now v.now }
    requires txn { HasSoundTxn around.now.book.now.fixed pass.old.seen txn.old }
    ensures told { (names : NamesOf) (asked : Line)
        → act_of names (transaction_in txn.old) asked
        ≡ without (cell_fault v.now) (Ok (reads v.now (downsampling_of down.now)))
        → IsReadTold around.now.book.now pass.old pass.new names txn.old txn.new line asked result }
    ensures caused { (names : NamesOf) (asked : Line)
        → act_of names (transaction_in txn.old) asked
        ≡ without (cell_fault v.now) (Ok (reads v.now (downsampling_of down.now)))
        → IsCausedBy around.now.book.now pass.old pass.new (session_state names (length pass.old.seen) txn.old)
        line asked names (transaction_in txn.new) result }
    ensures failures { TellsFailures (added_by pass.old pass.new) result }
    ensures passed { HasPassed around.now.book.now pass.old pass.new }
    ensures txn { HasSoundTxn around.now.book.now.fixed pass.new.seen txn.new }
{
    match txn {
        Some(t) => read_in(around, pass, t, v, down),
        None => read_alone(around, pass, line, v, down),
    }
}

// Reads a view in a transaction that is begun at this line, and is over with it.
fn read_alone<K: KvStore, R: Wait, G: Gate>(
    around: &Around<K, R, G>,
    pass: &mut Pass<State<K>>,
    line: u64,
    v: &View,
    down: &Option<DownWant>,
) -> Body
    requires pass { IsRested around.now.book.now pass.old }
    requires view { IsView v.now }
    requires refs { HasKnownRefs pass.old.seen v.now }
    requires count { count_answer (look_of v.now).dims ≡ Ok (length (cells_of (look_of v.now).dims)) }
    requires factors { MayHaveFactors down.now }
    requires rank { HasRank down.now v.now }
    ensures told { (names : NamesOf) (asked : Line)
        → act_of names None asked ≡ without (cell_fault v.now) (Ok (reads v.now (downsampling_of down.now)))
        → IsReadTold around.now.book.now pass.old pass.new names None None line asked result }
    ensures caused { (names : NamesOf) (asked : Line)
        → act_of names None asked ≡ without (cell_fault v.now) (Ok (reads v.now (downsampling_of down.now)))
        → IsCausedBy around.now.book.now pass.old pass.new (session_state names (length pass.old.seen) None) line asked
        names None result }
    ensures failures { TellsFailures (added_by pass.old pass.new) result }
    ensures passed { HasPassed around.now.book.now pass.old pass.new }
{
    let mode = Mode {
        atomic: false,
        repeatable_read: false,
    };
    let mut t = Txn::begin(around.alloc, line, mode);
    read_in(around, pass, &mut t, v, down)
}

// Reads a view in a transaction.
fn read_in<K: KvStore, R: Wait, G: Gate>(
    around: &Around<K, R, G>,
    pass: &mut Pass<State<K>>,
    t: &mut Txn,
    v: &View,
    down: &Option<DownWant>,
) -> Body
    requires pass { IsIdle around.now.book.now pass.old }
    requires view { IsView v.now }
    requires refs { HasKnownRefs pass.old.seen v.now }
    requires count { count_answer (look_of v.now).dims ≡ Ok (length (cells_of (look_of v.now).dims)) }
    requires factors { MayHaveFactors down.now }
    requires rank { HasRank down.now v.now }
    requires txn { IsTxnIn around.now.book.now.fixed pass.old.seen t.old }
    ensures answer { IsAnsweredRead around.now.book.now pass.old pass.new t.old t.new v.now (downsampling_of down.now)
        result }
    ensures txn { IsTxnIn around.now.book.now.fixed pass.new.seen t.new }
{
    match t.read(around, pass, v) {
        Ok(words) => values_body(around.alloc, v, down, words),
        Err(e) => unread(around.alloc, v, e),
    }
}

// The answer to a read that is refused.
fn unread(alloc: Global, v: &View, e: ReadError) -> Body
    requires count { count_answer (look_of v.now).dims ≡ Ok (length (cells_of (look_of v.now).dims)) }
    requires fault { IsViewFault v.now e }
    ensures { IsUnread v.now e result }
{
    match e {
        ReadError::View { fault } => fault_body(alloc, v, fault),
        ReadError::StoreFailed { event } => Body::StoreFailed {
            event,
            done: List::wrap(Vec::new(alloc)),
            events: None,
        },
        ReadError::Damaged { key, cause } => damaged(key, cause),
        ReadError::Shrunk { key, now } => Body::Shrunk { key, now },
        ReadError::Memory => Body::Memory,
    }
}
