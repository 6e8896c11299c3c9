ghost use Rattle.std.specs.Prelude.{◌≡◌, ◌≢◌, ◌∷◌, ◌++◌, ℕ, List, [], Err, Ok, IfOk, IfErr, OnOk, OnErr, length};
ghost use Rattle.std.specs.List.{AllByRecursion};
ghost use Rattle.cells.specs.Numbers.{IsWord};
ghost use Rattle.history.specs.History.{History};
ghost use Rattle.history.specs.Refs.{HasKnownRefs};
ghost use Rattle.history.specs.Staged.{IsStaged};
ghost use Rattle.history.specs.declared.event.Op.TheVariants as op;
ghost use Rattle.index_transform.specs.Cells.{count_answer};
ghost use Rattle.stack_driver.specs.Conditions.{IsView};
ghost use Rattle.stack_driver.specs.Views.{look_of};
ghost use Rattle.stack_targets.specs.Landings.{leaves_of};
ghost use Rattle.chunk_fetches.specs.Agreement.{Opening};
ghost use Rattle.chunk_fetches.specs.Operations.{AreStaged, HasSites, IsLeafIn};
ghost use Rattle.chunk_fetches.specs.Pieces.{AreCells};
ghost use Rattle.chunk_fetches.specs.Sites.{sites_of};
ghost use Rattle.chunk_fetches.specs.Staging.{CanStage, word_in};
ghost use Rattle.transactions.specs.Conditions.{IsTxnIn, MayUse};
ghost use Rattle.transactions.specs.Faults.{IsLocateFault};
ghost use Rattle.transactions.specs.declared.error.WriteError.TheVariants as write;

use crate::error::WriteError;
use crate::located::located;
use cells::WrittenWords;
use chunk_fetches::{Kept, Staging, ViewCells};
use history::{Mode, Op, Ops};
use stack_driver::{View, copy};
use std::alloc::{AllocError, Global};
use std::collections::BTreeMap;
use std::marker::Model;

/// A transaction between its lines. Contracts see where it was begun, its flags and operations, what is staged, and the chunks that it
/// keeps.
#[derive(Drop)]
pub struct Txn {
    pub(crate) line: u64,
    pub(crate) mode: Mode,
    /// The operations of a commit that failed, if there was one.
    pub(crate) shared: Option<Ops>,
    /// Those since.
    pub(crate) ops: Vec<Op>,
    pub(crate) staging: Staging,
    pub(crate) kept: Vec<Kept>,
    /// The places of the chunks that are kept, by their ids.
    pub(crate) places: BTreeMap<Vec<u64>, u64>,
}

impl Model for Txn {
    ghost use Rattle.std.specs.Coded.{codes};
    ghost use Rattle.stack_driver.specs.contracts.view.View as view_type;
    ghost use Rattle.std.specs.Prelude.{◌++◌};
    ghost use Rattle.transactions.specs.Txn.{TxnSeen, ArePlaces, shared_ops};

    ghost Value = { TxnSeen };

    ghost coded = { Prim.hlevel (codes, view_type.the_row.coded) };

    ghost view = { λ t. record { line = t.line; mode = t.mode; ops = shared_ops t.shared ++ t.ops.items; staged = t.staging; kept = t.kept.items } };

    ghost invariant = { λ t. ArePlaces t.places.entries t.kept.items };
}

impl Txn {
    /// A transaction without operations, begun at a line.
    pub fn begin(alloc: Global, line: u64, mode: Mode) -> Self
        ensures { result ≡ record { line = line; mode = mode; ops = []; staged = []; kept = [] } }
    {
        Txn {
            line,
            mode,
            shared: None,
            ops: Vec::new(alloc),
            staging: Staging::new(alloc),
            kept: Vec::new(alloc),
            places: BTreeMap::new(alloc),
        }
    }

    /// Stages words, one for each cell of a view in C order. No turn is taken.
    ///
    /// # Errors
    /// - `View` with the first thing that is wrong with the view; nothing has changed then.
    /// - `Memory`, after which the operations are as they were, and no word is staged that wasn't before.
    pub fn write(&mut self, alloc: Global, v: &View, words: &[u64]) -> Result<(), WriteError>
        requires view { IsView v.now }
        requires txn { MayUse v.now self.old }
        requires words { (n : ℕ) → count_answer (look_of v.now).dims ≡ Ok n → length words.now ≡ n }
        requires typed { AllByRecursion (IsWord (look_of v.now).dtype) words.now }
        ensures ok { OnOk result ((self.new.ops ≡ self.old.ops ++ op.Write v.now words.now ∷ [])
            × (self.new ≡ record self.old { ops = self.new.ops; staged = self.new.staged })) }
        ensures txn { OnOk result ((opening : Opening) (events : History) → IsTxnIn opening events self.old
            → HasKnownRefs events v.now → IsTxnIn opening events self.new) }
        ensures whole { OnOk result (IsStaged (op.Write v.now words.now)) }
        ensures err { IfErr result (IsLocateFault v.now) }
        ensures same { OnErr result (result ≢ Err write.Memory → self.new ≡ self.old) }
        ensures memory { OnErr result (self.new ≡ record self.old { staged = self.new.staged }) }
        ensures words { OnErr result ((id : List ℕ) (place : ℕ)
            → word_in self.new.staged id place ≡ word_in self.old.staged id place) }
    {
        let words = WrittenWords::each(Vec::from_slice(alloc, words)?);
        self.write_owned(alloc, v, words)
    }

    /// Stages words as `write` does, and takes them: they are those of the operation.
    ///
    /// # Errors
    /// Those of `write`.
    pub fn write_owned(
        &mut self,
        alloc: Global,
        v: &View,
        words: WrittenWords,
    ) -> Result<(), WriteError>
        requires view { IsView v.now }
        requires txn { MayUse v.now self.old }
        requires words { (n : ℕ) → count_answer (look_of v.now).dims ≡ Ok n → length words ≡ n }
        requires typed { AllByRecursion (IsWord (look_of v.now).dtype) words }
        ensures ok { OnOk result ((self.new.ops ≡ self.old.ops ++ op.Write v.now words ∷ [])
            × (self.new ≡ record self.old { ops = self.new.ops; staged = self.new.staged })) }
        ensures txn { OnOk result ((opening : Opening) (events : History) → IsTxnIn opening events self.old
            → HasKnownRefs events v.now → IsTxnIn opening events self.new) }
        ensures whole { OnOk result (IsStaged (op.Write v.now words)) }
        ensures err { IfErr result (IsLocateFault v.now) }
        ensures same { OnErr result (result ≢ Err write.Memory → self.new ≡ self.old) }
        ensures memory { OnErr result (self.new ≡ record self.old { staged = self.new.staged }) }
        ensures words { OnErr result ((id : List ℕ) (place : ℕ)
            → word_in self.new.staged id place ≡ word_in self.old.staged id place) }
    {
        let cells = located(alloc, v)?;
        self.stage(alloc, v, &cells, words)
    }

    /// Ends the transaction, of which nothing is done. It takes no memory and no turn.
    pub fn abort(self) {}
}

impl Txn {
    // Stages words at the cells of a view.
    fn stage(
        &mut self,
        alloc: Global,
        v: &View,
        cells: &ViewCells,
        words: WrittenWords,
    ) -> Result<(), WriteError>
        requires view { IsView v.now }
        requires cells { CanStage self.old.staged cells.now (length words) }
        requires sites { HasSites v.now }
        requires are { AreCells (sites_of v.now) cells.now }
        requires typed { AllByRecursion (IsWord (look_of v.now).dtype) words }
        ensures ok { OnOk result ((self.new.ops ≡ self.old.ops ++ op.Write v.now words ∷ [])
            × (self.new ≡ record self.old { ops = self.new.ops; staged = self.new.staged })) }
        ensures staged { OnOk result ((events : History) → AllByRecursion (IsLeafIn events) (leaves_of v.now)
            → AreStaged events self.old.ops self.old.staged → AreStaged events self.new.ops self.new.staged) }
        ensures err { OnErr result (result ≡ Err write.Memory) }
        ensures memory { OnErr result (self.new ≡ record self.old { staged = self.new.staged }) }
        ensures words { OnErr result ((id : List ℕ) (place : ℕ)
            → word_in self.new.staged id place ≡ word_in self.old.staged id place) }
    {
        let view = copy(alloc, v)?;
        self.ops.reserve(1)?;
        self.staging.stage(alloc, cells, &words)?;
        self.ops.push_reserved(Op::Write { view, words });
        Ok(())
    }
}
