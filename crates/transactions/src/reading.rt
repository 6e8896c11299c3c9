// Reads of a transaction.
ghost use Rattle.std.specs.Prelude.{◌≡◌, ◌<◌, ◌⊎◌, ℕ, List, [], Some, false, map, length, IfOk, IfErr, OnOk, OnErr};
ghost use Rattle.std.specs.FinMap as finmap;
ghost use Rattle.std.specs.List.{AllByRecursion, list_any};
ghost use mathlib.Core.List.{IsPrefix};
ghost use Rattle.cells.specs.Numbers.{IsWord};
ghost use Rattle.history.specs.History.{History};
ghost use Rattle.history.specs.Legal.{IsLegal};
ghost use Rattle.history.specs.Reads.{unwritten};
ghost use Rattle.history.specs.Refs.{HasKnownRefs};
ghost use Rattle.history.specs.Writes.{Content, read_values, written};
ghost use Rattle.history.specs.declared.event.Op.{Op};
ghost use Rattle.stack_driver.specs.Conditions.{IsView};
ghost use Rattle.stack_driver.specs.Views.{look_of};
ghost use Rattle.stack_driver.specs.declared.view.View.{View as ViewOf};
ghost use Rattle.stack_targets.specs.Landings.{leaves_of};
ghost use Rattle.chunk_fetches.specs.Outline.{outline};
ghost use Rattle.chunk_fetches.specs.Gathered.{AreChunksOf, AreTypedChunks, IsTold};
ghost use Rattle.chunk_fetches.specs.Operations.{AreStaged, HasSites, IsLeafIn};
ghost use Rattle.chunk_fetches.specs.Pieces.{AreCells};
ghost use Rattle.chunk_fetches.specs.Sites.{sites_of};
ghost use Rattle.chunk_fetches.specs.Staging.{CanStage};
ghost use Rattle.transactions.specs.Conditions.{IsTxnIn};
ghost use Rattle.transactions.specs.Faults.{IsLocateFault};
ghost use Rattle.transactions.specs.Had.{IsDenseOrNone, had_from, snapshots_of};
ghost use Rattle.transactions.specs.Keeping.{AreNewTo, with_read};
ghost use Rattle.transactions.specs.Reading.{as_read_fault, HasRead, IsFoundUnless, IsReadBy, IsReadError, IsReadOf, IsStoredIn, IsStrayRefusal, had_by, strays_by};
ghost use Rattle.chunk_fetches.specs.Sources.{sources_of};
ghost use Rattle.transactions.specs.Strays.{AreFitting, HasLeastKey};
ghost use Rattle.chunk_fetches.specs.Turns.{HasPassed, HasTurned};
ghost use Rattle.chunk_fetches.specs.declared.error.ReadError.TheVariants as read_error;
ghost use Rattle.transactions.specs.declared.stray.Stray.{Stray as StrayOf};
ghost use Rattle.turn_book.specs.Passes.{IsIdle};

use crate::error::WriteError;
use crate::located::located;
use crate::planning::chunks_from;
use crate::stray::Stray;
use crate::straying::last_of;
use crate::txn::Txn;
use cells::{Name, Words};
use chunk_fetches::{Around, Gate, Kept, ReadError, Source, State, ViewCells, fetch};
use kv_face::KvStore;
use stack_driver::View;
use std::alloc::{AllocError, Global};
use std::sync::Wait;
use turn_book::{Pass, TurnBook};

impl Txn {
    /// The words of a view's cells, in C order: what the transaction staged, else what stood at the mark of the cell's chunk. A chunk that the
    /// transaction doesn't keep is fetched, and decoded outside of turns, behind the gate. No turn is held at return.
    ///
    /// # Errors
    /// - `View` with the first thing that is wrong with the view; no turn was taken then.
    /// - `StoreFailed` where the store failed, which one event more tells.
    /// - `Damaged` for a chunk that the read needs whose bytes are none of its array's, where the store told its contents.
    /// - `Shrunk` where a cell lay outside its array's shape when its chunk was read.
    /// - `Memory`.
    ///
    /// After each the transaction is as it was.
    pub fn read<K: KvStore, R: Wait, G: Gate>(
        &mut self,
        around: &Around<K, R, G>,
        pass: &mut Pass<State<K>>,
        v: &View,
    ) -> Result<Words, ReadError>
        requires view { IsView v.now }
        requires pass { IsIdle around.now.book.now pass.old }
        requires txn { IsTxnIn around.now.book.now.fixed pass.old.seen self.old }
        requires refs { HasKnownRefs pass.old.seen v.now }
        ensures read { IfOk result (λ words. HasRead around.now.book.now.fixed
            (length pass.old.seen) pass.new.seen self.old self.new v.now words) }
        ensures turned { OnOk result (HasPassed around.now.book.now pass.old pass.new []) }
        ensures txn { IsTxnIn around.now.book.now.fixed pass.new.seen self.new }
        ensures errors { IfErr result (IsReadError around.now.book.now pass.old pass.new self.old v.now) }
        ensures found { IfErr result (IsFoundUnless v.now) }
        ensures same { OnErr result (self.new ≡ self.old) }
    {
        match located(around.alloc, v) {
            Ok(cells) => self.read_cells(around, pass, v, &cells),
            Err(e) => Err(unlocated(e)),
        }
    }

    fn read_cells<K: KvStore, R: Wait, G: Gate>(
        &mut self,
        around: &Around<K, R, G>,
        pass: &mut Pass<State<K>>,
        v: &View,
        cells: &ViewCells,
    ) -> Result<Words, ReadError>
        requires pass { IsIdle around.now.book.now pass.old }
        requires read { IsReadOf around.now.book.now.fixed pass.old.seen self.old v.now cells.now }
        ensures read { IfOk result (λ words. HasRead around.now.book.now.fixed
            (length pass.old.seen) pass.new.seen self.old self.new v.now words) }
        ensures turned { OnOk result (HasPassed around.now.book.now pass.old pass.new []) }
        ensures txn { IsTxnIn around.now.book.now.fixed pass.new.seen self.new }
        ensures errors { IfErr result (IsReadError around.now.book.now pass.old pass.new self.old v.now) }
        ensures same { OnErr result (self.new ≡ self.old) }
    {
        match self.sources(around.alloc, cells) {
            Ok(sources) => self.read_by(around, pass, v, cells, &sources),
            Err(_) => Err(ReadError::Memory),
        }
    }

    fn read_by<K: KvStore, R: Wait, G: Gate>(
        &mut self,
        around: &Around<K, R, G>,
        pass: &mut Pass<State<K>>,
        v: &View,
        cells: &ViewCells,
        sources: &[Source],
    ) -> Result<Words, ReadError>
        requires pass { IsIdle around.now.book.now pass.old }
        requires read { IsReadOf around.now.book.now.fixed pass.old.seen self.old v.now cells.now }
        requires sources { sources.now ≡ sources_of self.old.staged self.old.kept cells.now.pieces }
        ensures read { IfOk result (λ words. HasRead around.now.book.now.fixed
            (length pass.old.seen) pass.new.seen self.old self.new v.now words) }
        ensures turned { OnOk result (HasPassed around.now.book.now pass.old pass.new []) }
        ensures txn { IsTxnIn around.now.book.now.fixed pass.new.seen self.new }
        ensures errors { IfErr result (IsReadError around.now.book.now pass.old pass.new self.old v.now) }
        ensures same { OnErr result (self.new ≡ self.old) }
    {
        match fetch(around, pass, cells.pieces.items(), sources) {
            Ok(fetched) => self.read_fetched(around, pass, v, cells, sources, fetched),
            Err(e) => Err(e),
        }
    }

    // The read, once its chunks were fetched.
    fn read_fetched<K: KvStore, R: Wait, G: Gate>(
        &mut self,
        around: &Around<K, R, G>,
        pass: &mut Pass<State<K>>,
        v: &View,
        cells: &ViewCells,
        sources: &[Source],
        fetched: Vec<Kept>,
    ) -> Result<Words, ReadError>
        requires pass { IsIdle around.now.book.now pass.old }
        requires read { (seen : ℕ)
            × IsReadBy around.now.book.now.fixed seen pass.old.seen self.old v.now cells.now fetched.items }
        requires sources { sources.now ≡ sources_of self.old.staged self.old.kept cells.now.pieces }
        ensures read { IfOk result (λ words. (seen : ℕ)
            → IsReadBy around.now.book.now.fixed seen pass.old.seen self.old v.now cells.now fetched.items
            → HasRead around.now.book.now.fixed seen pass.new.seen self.old self.new v.now words) }
        ensures ok { OnOk result (pass.new ≡ pass.old) }
        ensures txn { IsTxnIn around.now.book.now.fixed pass.new.seen self.new }
        ensures errors { IfErr result (λ e. IsStrayRefusal around.now.book.now pass.old pass.new
            (strays_by self.old cells.now fetched.items) e) }
        ensures same { OnErr result (self.new ≡ self.old) }
    {
        match self.checked(around, pass, v, cells, sources, &fetched) {
            Ok(()) => self.show(around.alloc, v, cells, sources, fetched),
            Err(e) => Err(e),
        }
    }

    // Refuses where a cell was outside when its chunk was read.
    fn checked<K: KvStore, R: Wait, G: Gate>(
        &self,
        around: &Around<K, R, G>,
        pass: &mut Pass<State<K>>,
        v: &View,
        cells: &ViewCells,
        sources: &[Source],
        fetched: &[Kept],
    ) -> Result<(), ReadError>
        requires pass { IsIdle around.now.book.now pass.old }
        requires read { (seen : ℕ)
            × IsReadBy around.now.book.now.fixed seen pass.old.seen self.now v.now cells.now fetched.now }
        requires sources { sources.now ≡ sources_of self.now.staged self.now.kept cells.now.pieces }
        ensures none { OnOk result (strays_by self.now cells.now fetched.now ≡ []) }
        ensures ok { OnOk result (pass.new ≡ pass.old) }
        ensures errors { IfErr result (IsStrayRefusal around.now.book.now pass.old pass.new
            (strays_by self.now cells.now fetched.now)) }
    {
        match self.strays(around.alloc, cells, sources, fetched) {
            Ok(strays) => unless_stray(around.rt, around.book, pass, &strays),
            Err(_) => Err(ReadError::Memory),
        }
    }

    // The words, and what is kept of the read.
    fn show(
        &mut self,
        alloc: Global,
        v: &View,
        cells: &ViewCells,
        sources: &[Source],
        fetched: Vec<Kept>,
    ) -> Result<Words, ReadError>
        requires view { IsView v.now }
        requires cells { CanStage self.old.staged cells.now (length cells.now.leaves) }
        requires sized { AllByRecursion IsDenseOrNone (snapshots_of (had_by self.old cells.now fetched.items))
            → AreChunksOf cells.now.pieces (snapshots_of (had_by self.old cells.now fetched.items)) }
        requires sources { sources.now ≡ sources_of self.old.staged self.old.kept cells.now.pieces }
        requires new { AreNewTo self.old.kept fetched.items }
        ensures ok { IfOk result (λ words. self.new ≡ with_read self.old v.now words fetched.items) }
        ensures count { IfOk result (λ words. length words ≡ length cells.now.leaves) }
        ensures shown { IfOk result (λ words. (events : History) (content : Content)
            → AllByRecursion (IsLeafIn events) (leaves_of v.now) → HasSites v.now → AreCells (sites_of v.now) cells.now
            → AreStaged events self.old.ops self.old.staged
            → AllByRecursion (IsTold events content cells.now.pieces
            (snapshots_of (had_by self.old cells.now fetched.items))) (unwritten self.old.ops v.now)
            → map Some words ≡ read_values (written self.old.ops content) v.now) }
        ensures typed { IfOk result (λ words. (events : History) → AllByRecursion (IsLeafIn events) (leaves_of v.now)
            → HasSites v.now → AreCells (sites_of v.now) cells.now → AreStaged events self.old.ops self.old.staged
            → (AllByRecursion IsDenseOrNone (snapshots_of (had_by self.old cells.now fetched.items))
            → AreTypedChunks events cells.now.pieces (snapshots_of (had_by self.old cells.now fetched.items)))
            → AllByRecursion (IsWord (look_of v.now).dtype) words) }
        ensures err { IfErr result (λ e. e ≡ read_error.Memory) }
        ensures same { OnErr result (self.new ≡ self.old) }
    {
        let words = self.words(alloc, cells, sources, &fetched)?;
        self.keep_read(alloc, v, &words, fetched)?;
        Ok(Words::wrap(words))
    }

    fn words(
        &self,
        alloc: Global,
        cells: &ViewCells,
        sources: &[Source],
        fetched: &[Kept],
    ) -> Result<Vec<u64>, AllocError>
        requires cells { CanStage self.now.staged cells.now (length cells.now.leaves) }
        requires sized { AllByRecursion IsDenseOrNone (snapshots_of (had_by self.now cells.now fetched.now))
            → AreChunksOf cells.now.pieces (snapshots_of (had_by self.now cells.now fetched.now)) }
        requires sources { sources.now ≡ sources_of self.now.staged self.now.kept cells.now.pieces }
        ensures count { IfOk result (λ words. length words.items ≡ length cells.now.leaves) }
        ensures shown { IfOk result (λ words. (events : History) (v : ViewOf) (ops : List Op) (content : Content)
            → AllByRecursion (IsLeafIn events) (leaves_of v) → HasSites v → AreCells (sites_of v) cells.now
            → AreStaged events ops self.now.staged
            → AllByRecursion (IsTold events content cells.now.pieces
            (snapshots_of (had_by self.now cells.now fetched.now))) (unwritten ops v)
            → map Some words.items ≡ read_values (written ops content) v) }
        ensures typed { IfOk result (λ words. (events : History) (v : ViewOf) (ops : List Op)
            → AllByRecursion (IsLeafIn events) (leaves_of v) → HasSites v → AreCells (sites_of v) cells.now
            → AreStaged events ops self.now.staged
            → (AllByRecursion IsDenseOrNone (snapshots_of (had_by self.now cells.now fetched.now))
            → AreTypedChunks events cells.now.pieces (snapshots_of (had_by self.now cells.now fetched.now)))
            → AllByRecursion (IsWord (look_of v).dtype) words.items) }
    {
        let chunks = chunks_from(alloc, sources, &self.kept, fetched)?;
        self.staging.gather(alloc, cells, &chunks)
    }
}

fn unlocated(e: WriteError) -> ReadError
    ensures { result ≡ as_read_fault e }
{
    match e {
        WriteError::View { fault } => ReadError::View { fault },
        WriteError::Memory => ReadError::Memory,
    }
}

// Where there is one, the refusal by the least metadata key, which is told in a turn of its own.
fn unless_stray<K: KvStore, R: Wait>(
    rt: &R,
    book: &TurnBook<State<K>>,
    pass: &mut Pass<State<K>>,
    strays: &[Stray],
) -> Result<(), ReadError>
    requires pass { IsIdle book.now pass.old }
    requires stored { (events : History) → IsPrefix pass.old.seen events → IsLegal finmap.empty (outline events)
        → AllByRecursion (IsStoredIn events) strays.now }
    ensures none { OnOk result (strays.now ≡ []) }
    ensures ok { OnOk result (pass.new ≡ pass.old) }
    ensures errors { IfErr result (IsStrayRefusal book.now pass.old pass.new strays.now) }
{
    if strays.is_empty() {
        return Ok(());
    }
    match least_in_turn(rt, book, pass, strays) {
        Ok((key, array)) => Err(ReadError::Shrunk {
            key,
            now: last_of(strays, array),
        }),
        Err(_) => Err(ReadError::Memory),
    }
}

fn least_in_turn<K: KvStore, R: Wait>(
    rt: &R,
    book: &TurnBook<State<K>>,
    pass: &mut Pass<State<K>>,
    strays: &[Stray],
) -> Result<(Name, u64), AllocError>
    requires pass { IsIdle book.now pass.old }
    requires some { 0 < length strays.now }
    requires stored { (events : History) → IsPrefix pass.old.seen events → IsLegal finmap.empty (outline events)
        → AllByRecursion (IsStoredIn events) strays.now }
    ensures least { IfOk result (λ r. HasLeastKey pass.new.seen strays.now r.1 r.0) }
    ensures turned { HasTurned book.now pass.old pass.new [] }
{
    let mut held = book.take(rt, pass);
    let least = least_of(held.state(), strays);
    book.give(pass, held);
    least
}

// The least metadata key of the arrays, and the number of its array.
fn least_of<K: KvStore>(state: &State<K>, strays: &[Stray]) -> Result<(Name, u64), AllocError>
    requires some { 0 < length strays.now }
    requires stored { AllByRecursion (IsStoredIn state.now.log.events) strays.now }
    ensures { IfOk result (λ r. HasLeastKey state.now.log.events strays.now r.1 r.0) }
{
    let mut array = strays[0].array;
    let mut least = state.metadata_key(array)?;
    for s in strays {
        let key = state.metadata_key(s.array)?;
        if key < least {
            least = key;
            array = s.array;
        }
    }
    Ok((least, array))
}
