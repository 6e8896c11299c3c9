// Lines by their command, whose parts end with the line.
ghost use Rattle.std.specs.Prelude.{◌≡◌, ◌≢◌, ℕ, None, Option, All, length};
ghost use Rattle.session_openings.specs.declared.Body.TheVariants as printed;
ghost use Rattle.cells.specs.Shapes.{IsShape};
ghost use Rattle.history.specs.Bound.{AreKnownNames};
ghost use Rattle.history.specs.History.{History};
ghost use Rattle.history.specs.Lines.{opening, viewing, joining, reading, writing, resizing, resolving};
ghost use Rattle.indexmap.specs.IndexMap.{get_by_text};
ghost use Rattle.session_openings.specs.Form.{AreLayers, MayHaveFactors};
ghost use Rattle.session_openings.specs.Changes.{changes_of};
ghost use Rattle.session_openings.specs.Joins.{join_of};
ghost use Rattle.session_openings.specs.Numbers.{values_of, downsampling_of};
ghost use Rattle.session_openings.specs.MeaningOpenings.{leaves_of, build_of};
ghost use Rattle.serde_json.specs.View.{view as data_in};
ghost use Rattle.session_openings.specs.Wanted.{MayOpen};
ghost use Rattle.session_openings.specs.Caused.{IsCausedBy};
ghost use Rattle.session_openings.specs.Failures.{TellsFailures};
ghost use Rattle.session_openings.specs.Turns.{IsRested, HasPassed, added_by};
ghost use Rattle.session_openings.specs.Commits.{HasSoundTxn};
ghost use Rattle.session_openings.specs.Reads.{IsReadTold};
ghost use Rattle.session_openings.specs.Standing.{session_state, transaction_in, AreViews};
ghost use Rattle.session_openings.specs.Told.{IsToldAlone, IsToldBy};
ghost use Rattle.step_forms.specs.Given.{IsGiven};
ghost use Rattle.session_openings.specs.Txn.{TxnSeen};

use cells::{List, Name, Sizes};
use index_transform::Transform;
use kv_face::KvStore;
use serde_json::Value;
use session_openings::{
    Around, Body, DownWant, Gate, JoinForm, Names, OpenPlan, State, Txn, join, open, read, resize,
    resolve, view, write,
};
use std::alloc::Global;
use std::sync::Wait;
use step_forms::Step;
use turn_book::Pass;

/// Opens what a Spec tells.
pub(crate) fn opened<K: KvStore, R: Wait, G: Gate>(
    around: &Around<K, R, G>,
    pass: &mut Pass<State<K>>,
    names: &mut Names,
    txn: &Option<Txn>,
    name: Name,
    plan: OpenPlan,
) -> Body
    requires pass { IsRested around.now.book.now pass.old }
    requires views { AreViews (get_by_text names.old) }
    requires known { AreKnownNames pass.old.seen (get_by_text names.old) }
    requires plan { MayOpen around.now.book.now.fixed.store.names plan }
    ensures told { (line : ℕ) → IsToldBy around.now.book.now pass.old pass.new
        (session_state (get_by_text names.old) (length pass.old.seen) txn.now) line
        (opening name (leaves_of plan) (build_of plan)) (get_by_text names.new) (transaction_in txn.now) result }
    ensures caused { (line : ℕ) → IsCausedBy around.now.book.now pass.old pass.new
        (session_state (get_by_text names.old) (length pass.old.seen) txn.now) line
        (opening name (leaves_of plan) (build_of plan)) (get_by_text names.new) (transaction_in txn.now) result }
    ensures failures { TellsFailures (added_by pass.old pass.new) result }
    ensures passed { HasPassed around.now.book.now pass.old pass.new }
    ensures views { AreViews (get_by_text names.new) }
    ensures known { AreKnownNames pass.new.seen (get_by_text names.new) }
{
    open(around, pass, names, txn, name.items(), plan)
}

/// Binds a name to the view of another.
pub(crate) fn viewed(
    alloc: Global,
    names: &mut Names,
    name: Name,
    of: Name,
    transform: Option<Transform>,
    steps: List<Step>,
) -> Body
    requires given { All IsGiven steps }
    requires views { AreViews (get_by_text names.old) }
    ensures told { (seen line : ℕ) (t : Option TxnSeen)
        → IsToldAlone (session_state (get_by_text names.old) seen t) line
        (viewing name of (changes_of transform steps)) (get_by_text names.new) (transaction_in t) result }
    ensures views { AreViews (get_by_text names.new) }
    ensures known { (events : History) → AreKnownNames events (get_by_text names.old)
        → AreKnownNames events (get_by_text names.new) }
{
    view(
        alloc,
        names,
        name.items(),
        of.items(),
        &transform,
        steps.items(),
    )
}

/// Binds a name to views that are joined.
pub(crate) fn joined(
    alloc: Global,
    names: &mut Names,
    name: Name,
    form: JoinForm,
    layers: List<Name>,
    transform: Option<Transform>,
    steps: List<Step>,
) -> Body
    requires given { All IsGiven steps }
    requires layers { AreLayers layers }
    requires views { AreViews (get_by_text names.old) }
    ensures told { (seen line : ℕ) (t : Option TxnSeen)
        → IsToldAlone (session_state (get_by_text names.old) seen t) line
        (joining name layers (join_of form) (changes_of transform steps)) (get_by_text names.new)
        (transaction_in t) result }
    ensures views { AreViews (get_by_text names.new) }
    ensures known { (events : History) → AreKnownNames events (get_by_text names.old)
        → AreKnownNames events (get_by_text names.new) }
{
    join(
        alloc,
        names,
        name.items(),
        form,
        layers.items(),
        &transform,
        steps.items(),
    )
}

/// Reads a view.
pub(crate) fn shown<K: KvStore, R: Wait, G: Gate>(
    around: &Around<K, R, G>,
    pass: &mut Pass<State<K>>,
    names: &Names,
    line: u64,
    txn: &mut Option<Txn>,
    name: Name,
    steps: List<Step>,
    down: Option<DownWant>,
) -> Body
    requires pass { IsRested around.now.book.now pass.old }
    requires given { All IsGiven steps }
    requires factors { MayHaveFactors down }
    requires views { AreViews (get_by_text names.now) }
    requires known { AreKnownNames pass.old.seen (get_by_text names.now) }
    requires txn { HasSoundTxn around.now.book.now.fixed pass.old.seen txn.old }
    ensures told { IsReadTold around.now.book.now pass.old pass.new (get_by_text names.now) txn.old txn.new line
        (reading name (changes_of None steps) (downsampling_of down)) result }
    ensures caused { IsCausedBy around.now.book.now pass.old pass.new
        (session_state (get_by_text names.now) (length pass.old.seen) txn.old) line
        (reading name (changes_of None steps) (downsampling_of down)) (get_by_text names.now)
        (transaction_in txn.new) result }
    ensures failures { TellsFailures (added_by pass.old pass.new) result }
    ensures passed { HasPassed around.now.book.now pass.old pass.new }
    ensures txn { HasSoundTxn around.now.book.now.fixed pass.new.seen txn.new }
{
    read(
        around,
        pass,
        names,
        line,
        txn,
        name.items(),
        steps.items(),
        &down,
    )
}

/// Writes values to a view.
pub(crate) fn written<K: KvStore, R: Wait, G: Gate>(
    around: &Around<K, R, G>,
    pass: &mut Pass<State<K>>,
    names: &Names,
    line: u64,
    txn: &mut Option<Txn>,
    name: Name,
    steps: List<Step>,
    values: Value,
) -> Body
    requires pass { IsRested around.now.book.now pass.old }
    requires given { All IsGiven steps }
    requires views { AreViews (get_by_text names.now) }
    requires known { AreKnownNames pass.old.seen (get_by_text names.now) }
    requires txn { HasSoundTxn around.now.book.now.fixed pass.old.seen txn.old }
    ensures told { IsToldBy around.now.book.now pass.old pass.new
        (session_state (get_by_text names.now) (length pass.old.seen) txn.old) line
        (writing name (changes_of None steps) (values_of (data_in values))) (get_by_text names.now)
        (transaction_in txn.new) result }
    ensures caused { IsCausedBy around.now.book.now pass.old pass.new
        (session_state (get_by_text names.now) (length pass.old.seen) txn.old) line
        (writing name (changes_of None steps) (values_of (data_in values))) (get_by_text names.now)
        (transaction_in txn.new) result }
    ensures failures { TellsFailures (added_by pass.old pass.new) result }
    ensures passed { HasPassed around.now.book.now pass.old pass.new }
    ensures txn { result ≢ printed.Memory → HasSoundTxn around.now.book.now.fixed pass.new.seen txn.new }
{
    write(
        around,
        pass,
        names,
        line,
        txn,
        name.items(),
        steps.items(),
        values,
    )
}

/// Gives the array of a view another shape.
pub(crate) fn resized<K: KvStore, R: Wait, G: Gate>(
    around: &Around<K, R, G>,
    pass: &mut Pass<State<K>>,
    names: &Names,
    txn: &Option<Txn>,
    name: Name,
    shape: Sizes,
) -> Body
    requires pass { IsRested around.now.book.now pass.old }
    requires known { AreKnownNames pass.old.seen (get_by_text names.now) }
    requires sizes { IsShape shape }
    ensures told { (line : ℕ) → IsToldBy around.now.book.now pass.old pass.new
        (session_state (get_by_text names.now) (length pass.old.seen) txn.now) line (resizing name shape)
        (get_by_text names.now) (transaction_in txn.now) result }
    ensures caused { (line : ℕ) → IsCausedBy around.now.book.now pass.old pass.new
        (session_state (get_by_text names.now) (length pass.old.seen) txn.now) line (resizing name shape)
        (get_by_text names.now) (transaction_in txn.now) result }
    ensures failures { TellsFailures (added_by pass.old pass.new) result }
    ensures passed { HasPassed around.now.book.now pass.old pass.new }
{
    resize(around, pass, names, txn, name.items(), shape.items())
}

/// Takes the bounds of a view anew.
pub(crate) fn resolved<K: KvStore, R: Wait, G: Gate>(
    around: &Around<K, R, G>,
    pass: &mut Pass<State<K>>,
    names: &mut Names,
    txn: &Option<Txn>,
    name: Name,
) -> Body
    requires pass { IsRested around.now.book.now pass.old }
    requires views { AreViews (get_by_text names.old) }
    requires known { AreKnownNames pass.old.seen (get_by_text names.old) }
    ensures told { (line : ℕ) → IsToldBy around.now.book.now pass.old pass.new
        (session_state (get_by_text names.old) (length pass.old.seen) txn.now) line (resolving name)
        (get_by_text names.new) (transaction_in txn.now) result }
    ensures caused { (line : ℕ) → IsCausedBy around.now.book.now pass.old pass.new
        (session_state (get_by_text names.old) (length pass.old.seen) txn.now) line (resolving name)
        (get_by_text names.new) (transaction_in txn.now) result }
    ensures failures { TellsFailures (added_by pass.old pass.new) result }
    ensures passed { HasPassed around.now.book.now pass.old pass.new }
    ensures views { AreViews (get_by_text names.new) }
    ensures known { AreKnownNames pass.new.seen (get_by_text names.new) }
{
    resolve(around, pass, names, txn, name.items())
}
