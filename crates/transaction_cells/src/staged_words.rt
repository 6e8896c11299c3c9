// The words that are staged at the cells of a view's piece.
ghost use Rattle.std.specs.Prelude.{◌≡◌, ◌++◌, ◌<◌, ◌≤◌, ◌^◌, [], length, map, slice_index_or, IfOk, OnOk};
ghost use Rattle.std.specs.List.{AllByRecursion, flat_map};
ghost use Rattle.cells.specs.Runs.{pairs_of};
ghost use Rattle.cells.specs.declared.run.Run.{Run as RunOf};
ghost use Rattle.transaction_cells.specs.Needs.{IsRunIn};
ghost use Rattle.transaction_cells.specs.StagedWords.{word_of_pair, staged_words};
ghost use Rattle.transaction_cells.specs.Staging.{CanStage};
ghost use Rattle.transaction_cells.specs.declared.view_cells.Piece.{Piece as PieceOf};

use crate::staging::{Staging, place_at};
use crate::view_cells::ViewCells;
use cells::Run;
use rebase_writes::Staged;
use std::alloc::{AllocError, Global};

impl Staging {
    /// For each cell of a view's piece, in order, the word that is staged there, if there is one.
    ///
    /// # Errors
    /// Want of memory alone.
    pub fn words_at(
        &self,
        alloc: Global,
        cells: &ViewCells,
        piece: usize,
    ) -> Result<Vec<Option<u64>>, AllocError>
        requires cells { CanStage self.now cells.now (length cells.now.leaves) }
        requires piece { piece < length cells.now.pieces }
        ensures { IfOk result (λ words. (d : PieceOf)
            → words.items ≡ staged_words self.now (slice_index_or cells.now.pieces piece d)) }
    {
        let piece = &cells.pieces.items()[piece];
        match self.table.get(piece.id.items()) {
            Some(staged) => words_along(alloc, staged, piece.runs.items()),
            None => no_words(alloc, piece.runs.items()),
        }
    }
}

fn words_along(alloc: Global, staged: &Staged, runs: &[Run]) -> Result<Vec<Option<u64>>, AllocError>
    requires runs { AllByRecursion (IsRunIn (length staged.now)) runs.now }
    requires small { length staged.now ≤ 2 ^ 24 }
    ensures { IfOk result (λ words. words.items ≡ map (word_of_pair staged.now) (flat_map pairs_of runs.now)) }
{
    let mut words = Vec::new(alloc);
    for i in 0..runs.len() {
        add_words(&mut words, staged, run_at(runs, i))?;
    }
    Ok(words)
}

fn run_at(runs: &[Run], at: usize) -> Run
    requires { at < length runs.now }
    ensures { (d : RunOf) → result ≡ slice_index_or runs.now at d }
{
    runs[at]
}

fn add_words(words: &mut Vec<Option<u64>>, staged: &Staged, run: Run) -> Result<(), AllocError>
    requires run { IsRunIn (length staged.now) run }
    requires small { length staged.now ≤ 2 ^ 24 }
    ensures { OnOk result (words.new.items ≡ words.old.items ++ map (word_of_pair staged.now) (pairs_of run)) }
{
    for k in 0..run.len {
        let place = place_at(&run, k);
        words.push(staged.word(place))?;
    }
    Ok(())
}

fn no_words(alloc: Global, runs: &[Run]) -> Result<Vec<Option<u64>>, AllocError>
    ensures { IfOk result (λ words. words.items ≡ map (word_of_pair []) (flat_map pairs_of runs.now)) }
{
    let mut words = Vec::new(alloc);
    for i in 0..runs.len() {
        add_none(&mut words, run_at(runs, i))?;
    }
    Ok(words)
}

fn add_none(words: &mut Vec<Option<u64>>, run: Run) -> Result<(), AllocError>
    ensures { OnOk result (words.new.items ≡ words.old.items ++ map (word_of_pair []) (pairs_of run)) }
{
    for k in 0..run.len {
        // The cell of pair `k`.
        let _ = k;
        words.push(None)?;
    }
    Ok(())
}
