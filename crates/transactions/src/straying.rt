// Cells that a read needs outside the shapes that their arrays had when their chunks were read.
ghost use Rattle.std.specs.Prelude.{◌≡◌, ◌<◌, ℕ, List, IfOk, length, slice_index_or, Contains};
ghost use Rattle.std.specs.List.{AllByRecursion};
ghost use Rattle.std.specs.Option.{option_copied};
ghost use Rattle.chunk_fetches.specs.Staging.{CanStage};
ghost use Rattle.chunk_fetches.specs.declared.Piece.{Piece as PieceOf};
ghost use Rattle.transactions.specs.Had.{had_from};
ghost use Rattle.transactions.specs.Strays.{AreFitting, IsFitting, HasLastNumber, stray_at, stray_of, strays_of};
ghost use Rattle.chunk_fetches.specs.Kept.{chunk_at};
ghost use Rattle.transactions.specs.declared.stray.Stray.{Stray as StrayOf};

use crate::planning::{count_new, had_of};
use crate::stray::Stray;
use crate::txn::Txn;
use chunk_fetches::{Kept, Source, ViewCells, array_in};
use std::alloc::{AllocError, Global};

impl Txn {
    /// For each piece of whose chunk the read needs a cell outside its array's bounds then, the array with the mark and the bounds.
    pub(crate) fn strays(
        &self,
        alloc: Global,
        cells: &ViewCells,
        sources: &[Source],
        fetched: &[Kept],
    ) -> Result<Vec<Stray>, AllocError>
        requires cells { CanStage self.now.staged cells.now (length cells.now.leaves) }
        requires count { length sources.now ≡ length cells.now.pieces }
        requires fit { AreFitting cells.now.pieces (had_from sources.now self.now.kept fetched.now 0) }
        ensures { IfOk result (λ strays. strays.items
            ≡ strays_of self.now.staged cells.now.pieces (had_from sources.now self.now.kept fetched.now 0)) }
    {
        let mut strays = Vec::new(alloc);
        let mut next = 0;
        for (k, source) in sources.iter().enumerate() {
            let had = had_of(*source, &self.kept, fetched, next);
            if let Some(stray) = self.stray(cells, k, had) {
                strays.push(stray)?;
            }
            next += count_new(*source);
        }
        Ok(strays)
    }

    fn stray(&self, cells: &ViewCells, piece: usize, had: Option<&Kept>) -> Option<Stray>
        requires cells { CanStage self.now.staged cells.now (length cells.now.leaves) }
        requires piece { piece < length cells.now.pieces }
        requires fits { (d : PieceOf) → IsFitting (slice_index_or cells.now.pieces piece d) (option_copied had) }
        ensures { (d : PieceOf) → result ≡ stray_at self.now.staged (slice_index_or cells.now.pieces piece d)
            (option_copied had.entry) }
    {
        match had {
            Some(k) => self.stray_of(cells, piece, k),
            None => None,
        }
    }

    fn stray_of(&self, cells: &ViewCells, piece: usize, k: &Kept) -> Option<Stray>
        requires cells { CanStage self.now.staged cells.now (length cells.now.leaves) }
        requires piece { piece < length cells.now.pieces }
        requires fits { (d : PieceOf) → IsFitting (slice_index_or cells.now.pieces piece d) (Some k.now) }
        ensures { (d : PieceOf) → result ≡ stray_at self.now.staged (slice_index_or cells.now.pieces piece d)
            (Some k.now) }
    {
        let chunk = k.snapshot.cells().shape();
        if self
            .staging
            .needs_outside(cells, piece, chunk, k.bounds.shape.items())
        {
            return Some(told(k));
        }
        None
    }
}

fn told(k: &Kept) -> Stray
    ensures { result ≡ stray_of k.now }
{
    Stray {
        array: array_in(k.id.items()),
        mark: k.mark,
        resized: k.bounds.resized,
    }
}

/// The number of the one with the greatest mark, of an array.
pub(crate) fn last_of(strays: &[Stray], array: u64) -> u64
    requires { (s : StrayOf) × Contains strays.now s × (s.array ≡ array) }
    ensures { HasLastNumber strays.now array result }
{
    let mut mark = 0;
    let mut number = 0;
    for s in strays {
        if s.array == array && mark <= s.mark {
            mark = s.mark;
            number = s.resized;
        }
    }
    number
}
