// What a session's transaction has by its operations.
ghost use Rattle.std.specs.Prelude.{◌≡◌, ◌<◌, ◌≤◌, ◌&&◌, ◌||◌, ◌++◌, ◌∷◌, [], ℕ, List, OnOk, false, get_or, length};
ghost use Rattle.std.specs.FinMap as finmap;
ghost use Rattle.std.specs.List.{AllByRecursion};
ghost use Rattle.std.specs.Str.{bytes_eq};
ghost use Rattle.cells.specs.Numbers.{IsWord};
ghost use Rattle.history.specs.declared.event.Op.{Op as OpOf};
ghost use Rattle.history.specs.declared.event.Op.TheVariants as op;
ghost use Rattle.history.specs.History.{History};
ghost use Rattle.history.specs.Legal.{IsLegal};
ghost use Rattle.index_transform.specs.Cells.{cells_of};
ghost use Rattle.stack_driver.specs.Views.{look_of};
ghost use Rattle.transaction_cells.specs.Needs.{needs};
ghost use Rattle.transaction_cells.specs.Staging.{CanStage, StagedChunk};
ghost use Rattle.transaction_cells.specs.declared.view_cells.Piece.{Piece as PieceOf};
ghost use Rattle.read_fits.specs.Owned.{AreOwn, Id as IdOf, IsThere, has_id, is_needed};

use crate::reads::located;
use cells::WrittenWords;
use indexmap::IndexSet;
use stack_driver::View;
use std::alloc::{AllocError, Global};
use transaction_cells::{Staging, ViewCells};

/// What a session's transaction has by its operations: what its Writes staged, and which chunks its Reads named first.
#[derive(Drop)]
pub struct Own {
    pub(crate) staging: Staging,
    pub(crate) reads: Ids,
}

/// Chunks by their ids.
#[derive(Drop)]
pub(crate) struct Ids {
    pub(crate) set: IndexSet<Vec<u64>>,
}

impl Own {
    /// No operation.
    pub fn new(alloc: Global) -> Own
        ensures { (history : History) (upto : ℕ) → AreOwn history upto [] result.staging result.reads.set.keys }
    {
        Own {
            staging: Staging::new(alloc),
            reads: Ids {
                set: IndexSet::new(alloc),
            },
        }
    }

    /// A Read of the view more. The time is that of its cells.
    ///
    /// # Errors
    /// `AllocError` where memory is wanting; what there is is of no use then.
    pub fn read(&mut self, alloc: Global, view: &View) -> Result<(), AllocError>
        requires { (history : History) × (upto : ℕ) × (ops : List OpOf) × IsThere history upto view.now
            × AreOwn history upto ops self.old.staging self.old.reads.set.keys }
        ensures { OnOk result ((history : History) (upto : ℕ) (ops : List OpOf) (words : List ℕ)
            → IsThere history upto view.now
            → AreOwn history upto ops self.old.staging self.old.reads.set.keys
            → AreOwn history upto (ops ++ op.Read view.now words ∷ []) self.new.staging self.new.reads.set.keys) }
    {
        let cells = located(alloc, view)?;
        add_needed(alloc, &mut self.reads, &self.staging, &cells)?;
        Ok(())
    }

    /// A Write of the words to the view more. The time is that of its cells.
    ///
    /// # Errors
    /// `AllocError` where memory is wanting; what there is is of no use then.
    pub fn write(
        &mut self,
        alloc: Global,
        view: &View,
        words: &WrittenWords,
    ) -> Result<(), AllocError>
        requires own { (history : History) × (upto : ℕ) × (ops : List OpOf) × IsThere history upto view.now
            × AreOwn history upto ops self.old.staging self.old.reads.set.keys }
        requires count { length words.now ≡ length (cells_of (look_of view.now).dims) }
        requires typed { AllByRecursion (IsWord (look_of view.now).dtype) words.now }
        ensures { OnOk result ((history : History) (upto : ℕ) (ops : List OpOf)
            → IsThere history upto view.now
            → AreOwn history upto ops self.old.staging self.old.reads.set.keys
            → AreOwn history upto (ops ++ op.Write view.now words.now ∷ []) self.new.staging
            self.new.reads.set.keys) }
    {
        let cells = located(alloc, view)?;
        self.staging.stage(alloc, &cells, words)?;
        Ok(())
    }
}

/// What a transaction has by its operations, of the first so many events of a history that may have happened, it has of more of them.
pub fn stays_own()
    ensures { (history : History) (upto later : ℕ) (ops : List OpOf) (staged : List StagedChunk) (ids : List IdOf)
        → IsLegal finmap.empty history → upto ≤ later → AreOwn history upto ops staged ids
        → AreOwn history later ops staged ids }
{}

impl Ids {
    /// Whether the id is one of these.
    pub(crate) fn has(&self, id: &[u64]) -> bool
        ensures { result ≡ has_id self.now.set.keys id.now }
    {
        self.set.contains(id)
    }

    // One id more.
    fn add(&mut self, alloc: Global, id: &[u64]) -> Result<(), AllocError>
        ensures { OnOk result ((other : List ℕ) → has_id self.new.set.keys other
            ≡ (bytes_eq id.now other || has_id self.old.set.keys other)) }
    {
        if self.has(id) {
            Ok(())
        } else {
            self.enter(alloc, id)
        }
    }

    // An id more that isn't there.
    fn enter(&mut self, alloc: Global, id: &[u64]) -> Result<(), AllocError>
        requires { has_id self.old.set.keys id.now ≡ false }
        ensures { OnOk result ((other : List ℕ) → has_id self.new.set.keys other
            ≡ (bytes_eq id.now other || has_id self.old.set.keys other)) }
    {
        let key = Vec::from_slice(alloc, id)?;
        match self.set.insert(key) {
            Ok(_) => Ok(()),
            Err(_) => Err(AllocError),
        }
    }
}

// The chunks that are needed more.
fn add_needed(
    alloc: Global,
    ids: &mut Ids,
    staging: &Staging,
    cells: &ViewCells,
) -> Result<(), AllocError>
    requires { CanStage staging.now cells.now (length cells.now.leaves) }
    ensures { OnOk result ((id : List ℕ) → has_id ids.new.set.keys id
        ≡ (is_needed staging.now cells.now.pieces id || has_id ids.old.set.keys id)) }
{
    for i in 0..cells.pieces.items().len() {
        add_piece(alloc, ids, staging, cells, i)?;
    }
    Ok(())
}

// The chunk of a piece more, where it is needed.
fn add_piece(
    alloc: Global,
    ids: &mut Ids,
    staging: &Staging,
    cells: &ViewCells,
    at: usize,
) -> Result<(), AllocError>
    requires cells { CanStage staging.now cells.now (length cells.now.leaves) }
    requires at { at < length cells.now.pieces }
    ensures { OnOk result ((d : PieceOf) (id : List ℕ) → has_id ids.new.set.keys id
        ≡ ((needs staging.now (get_or cells.now.pieces at d) && bytes_eq (get_or cells.now.pieces at d).id id)
        || has_id ids.old.set.keys id)) }
{
    if staging.needs(cells, at) {
        ids.add(alloc, id_at(cells, at))
    } else {
        Ok(())
    }
}

// The id of a piece.
pub(crate) fn id_at(cells: &ViewCells, at: usize) -> &[u64]
    requires { at < length cells.now.pieces }
    ensures { (d : PieceOf) → result.now ≡ (get_or cells.now.pieces at d).id }
{
    cells.pieces.items()[at].id.items()
}
