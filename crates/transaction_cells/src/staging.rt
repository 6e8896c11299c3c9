ghost use Rattle.std.specs.Prelude.{◌≡◌, ◌∷◌, ◌++◌, [], ℕ, List, Option, length, map, slice_index, slice_index_or, ◌<◌, ◌≤◌, ◌^◌, pos, ◌≤ℤ◌, ◌<ℤ◌, IsTrue, OnOk, OnErr, replicate};
ghost use Rattle.std.specs.List.{AllByRecursion, IsDistinct, list_any};
ghost use Rattle.std.specs.Map.Iter.{ShowsInOrder, deref_pair};
ghost use Rattle.std.specs.Str.{bytes_eq};
ghost use Rattle.cells.specs.Numbers.{IsWord};
ghost use Rattle.cells.specs.Runs.{IsRunInside, pairs_of, chunk_number, chunk_place};
ghost use Rattle.rebase_writes.specs.Runs.{pairs_written};
ghost use Rattle.history.specs.Chunks.{chunk_of};
ghost use Rattle.history.specs.History.{History};
ghost use Rattle.history.specs.Reads.{unwritten};
ghost use Rattle.history.specs.declared.event.Op.{Op};
ghost use Rattle.history.specs.declared.event.Op.TheVariants as op;
ghost use Rattle.stack_driver.specs.Views.{look_of};
ghost use Rattle.stack_driver.specs.declared.view.View.{View};
ghost use Rattle.stack_targets.specs.Landings.{leaves_of};
ghost use Rattle.transaction_cells.specs.Operations.{AreStaged, HasSites, IsLeafIn};
ghost use Rattle.transaction_cells.specs.Casting.{taken_back};
ghost use Rattle.transaction_cells.specs.Found.{Id, found};
ghost use Rattle.transaction_cells.specs.Needs.{IsRunIn, is_bare, are_bare, needs};
ghost use Rattle.transaction_cells.specs.declared.view_cells.Piece.{Piece};
ghost use Rattle.transaction_cells.specs.Pieces.{AreCells};
ghost use Rattle.transaction_cells.specs.Sites.{Site, sites_of, id_of};
ghost use Rattle.transaction_cells.specs.Staging.{StagedChunk, chunks_of, staged_of, word_in, written_at, CanStage};
ghost use Rattle.cells.specs.Written.{words_seen};
ghost use Rattle.transaction_cells.specs.Tables.{prepared, HasSameWords, MayWrite, pieces_written, runs_written};

use crate::view_cells::{Piece, ViewCells};
use cells::{Run, SeenWords, WrittenWords};
use rebase_writes::Staged;
use std::alloc::{AllocError, Global};
use std::collections::BTreeMap;
use std::collections::btree_map::Iter;
use std::marker::Model;

/// Staged cells by the ids of their chunks.
pub(crate) type Table = BTreeMap<Vec<u64>, Staged>;

/// What a transaction has written and not yet committed, by chunks. A contract sees the chunks in the order of their ids.
#[derive(Drop)]
pub struct Staging {
    pub(crate) table: Table,
}

impl Model for Staging {
    ghost use Rattle.std.specs.Prelude.{List};
    ghost use Rattle.transaction_cells.specs.Staging.{StagedChunk, chunks_of};

    ghost Value = { List StagedChunk };

    ghost view = { λ s. chunks_of s.table.entries };
}

impl Staging {
    /// Nothing staged.
    pub fn new(alloc: Global) -> Self
        ensures { result ≡ [] }
    {
        Staging {
            table: BTreeMap::new(alloc),
        }
    }

    /// Stages the words of a view, cell by cell: each, taken back through the casts of its cell, at the place where the cell lies. The
    /// last word of a cell counts.
    ///
    /// # Errors
    /// Want of memory alone. No word is staged then that wasn't before.
    pub fn stage(
        &mut self,
        alloc: Global,
        cells: &ViewCells,
        words: &WrittenWords,
    ) -> Result<(), AllocError>
        requires { CanStage self.old cells.now (length words.now) }
        ensures ok { OnOk result ((sites : List Site) → AreCells sites cells.now → (id : List ℕ)
            → staged_of self.new id ≡ written_at id sites words.now (staged_of self.old id)) }
        ensures history { OnOk result ((events : History) (v : View) (ops : List Op)
            → AllByRecursion (IsLeafIn events) (leaves_of v) → HasSites v → AreCells (sites_of v) cells.now
            → AllByRecursion (IsWord (look_of v).dtype) words.now → AreStaged events ops self.old
            → AreStaged events (ops ++ op.Write v words.now ∷ []) self.new) }
        ensures err { OnErr result ((id : List ℕ) (place : ℕ) → word_in self.new id place ≡ word_in self.old id place) }
    {
        if cells.is_plain() {
            self.stage_kept(alloc, cells, words.seen())?;
            return Ok(());
        }
        let kept = cells.back(alloc, words)?;
        self.stage_kept(alloc, cells, SeenWords::Each { words: &kept })?;
        Ok(())
    }

    // The same with the words that are kept for those of a view.
    fn stage_kept(
        &mut self,
        alloc: Global,
        cells: &ViewCells,
        kept: SeenWords<'_>,
    ) -> Result<(), AllocError>
        requires { CanStage self.old cells.now (length (words_seen kept)) }
        ensures ok { OnOk result ((sites : List Site) → AreCells sites cells.now → (words : List ℕ)
            → words_seen kept.entry ≡ taken_back cells.now.lanes cells.now.leaves words
            → length words ≡ length (words_seen kept.entry)
            → (id : List ℕ) → staged_of self.new id ≡ written_at id sites words (staged_of self.old id)) }
        ensures err { OnErr result ((id : List ℕ) (place : ℕ) → word_in self.new id place ≡ word_in self.old id place) }
    {
        let pieces = cells.pieces.items();
        prepare(alloc, &mut self.table, pieces)?;
        write(&mut self.table, pieces, looked_at(kept));
        Ok(())
    }

    /// The chunks of which a word is staged, in the order of their ids.
    pub fn chunks(&self) -> Iter<'_, Vec<u64>, Staged>
        ensures rest { chunks_of result ≡ self.now }
        ensures runs { ShowsInOrder (deref_pair {K = Id} {X = List (Option ℕ)}) }
        ensures apart { IsDistinct bytes_eq (map (λ (c : StagedChunk). c.id) self.now) }
    {
        self.table.iter()
    }

    /// Whether a read of a view needs the chunk of one of its pieces: at a cell of it no word is staged. It takes no memory.
    pub fn needs(&self, cells: &ViewCells, piece: usize) -> bool
        requires cells { CanStage self.now cells.now (length cells.now.leaves) }
        requires piece { piece < length cells.now.pieces }
        ensures value { (d : Piece) → result ≡ needs self.now (slice_index_or cells.now.pieces piece d) }
        ensures history { (d : Piece) (events : History) (v : View) (ops : List Op)
            → AllByRecursion (IsLeafIn events) (leaves_of v) → HasSites v → AreCells (sites_of v) cells.now
            → AreStaged events ops self.now
            → result ≡ list_any (λ x. bytes_eq (id_of (chunk_of events x))
            (slice_index_or cells.now.pieces piece d).id) (unwritten ops v) }
    {
        let piece = &cells.pieces.items()[piece];
        match self.table.get(piece.id.items()) {
            Some(staged) => are_bare(staged, piece.runs.items()),
            None => true,
        }
    }
}

// Whether at one of the pairs of runs no word is staged.
fn are_bare(staged: &Staged, runs: &[Run]) -> bool
    requires runs { AllByRecursion (IsRunIn (length staged.now)) runs.now }
    requires small { length staged.now ≤ 2 ^ 24 }
    ensures { result ≡ are_bare staged.now runs.now }
{
    for run in runs {
        if is_bare(staged, run) {
            return true;
        }
    }
    false
}

fn is_bare(staged: &Staged, run: &Run) -> bool
    requires run { IsRunIn (length staged.now) run.now }
    requires small { length staged.now ≤ 2 ^ 24 }
    ensures { result ≡ list_any (is_bare staged.now) (pairs_of run.now) }
{
    for k in 0..run.len {
        if !staged.covers(place_at(run, k)) {
            return true;
        }
    }
    false
}

/// The place in the chunk of pair `k`.
pub(crate) fn place_at(run: &Run, k: u32) -> usize
    requires from_first { pos 0 ≤ℤ chunk_number run.now k }
    requires to_last { chunk_number run.now k <ℤ pos (2 ^ 63) }
    ensures { result ≡ chunk_place run.now k }
{
    let place = i64::from(run.chunk) + run.chunk_step * i64::from(k);
    place as usize
}

// Makes an entry for each piece that has none.
fn prepare(alloc: Global, table: &mut Table, pieces: &[Piece]) -> Result<(), AllocError>
    ensures ok { OnOk result ((id : List ℕ) → found table.new.entries id
        ≡ prepared pieces.now id (found table.old.entries id)) }
    ensures words { (id : List ℕ) → HasSameWords (found table.old.entries id) (found table.new.entries id) }
{
    for piece in pieces {
        add(alloc, table, piece)?;
    }
    Ok(())
}

fn add(alloc: Global, table: &mut Table, piece: &Piece) -> Result<(), AllocError>
    ensures ok { OnOk result ((id : List ℕ) → found table.new.entries id
        ≡ prepared (piece.now ∷ []) id (found table.old.entries id)) }
    ensures err { OnErr result (table.new.entries ≡ table.old.entries) }
{
    if table.contains_key(piece.id.items()) {
        return Ok(());
    }
    let staged = Staged::new(alloc, piece.size as usize)?;
    let id = Vec::from_slice(alloc, piece.id.items())?;
    match table.insert(id, staged) {
        Ok(_) => Ok(()),
        Err(_) => Err(AllocError),
    }
}

// Fewer words aren't looked at.
const FEW_WORDS: usize = 64;

// The same words, as one where there are many and all of them are the same.
fn looked_at(words: SeenWords<'_>) -> SeenWords<'_>
    ensures { words_seen result ≡ words_seen words.entry }
{
    match words {
        SeenWords::Each { words } => one_or_each(words),
        SeenWords::One { word, count } => SeenWords::One { word, count },
    }
}

fn one_or_each(words: &[u64]) -> SeenWords<'_>
    ensures { words_seen result ≡ words.now }
{
    if is_one(words) {
        SeenWords::One {
            word: words[0],
            count: words.len(),
        }
    } else {
        SeenWords::Each { words }
    }
}

// Whether there are many words, all of them the same. Where the last isn't the first, the others aren't looked at; else all are, so that the loop takes
// several at a time.
fn is_one(words: &[u64]) -> bool
    ensures many { IsTrue result → 0 < length words.now }
    ensures same { IsTrue result → (k : ℕ) → k < length words.now → slice_index words.now k ≡ slice_index words.now 0 }
{
    if words.len() < FEW_WORDS {
        return false;
    }
    let first = words[0];
    if words[words.len() - 1] != first {
        return false;
    }
    let mut same = true;
    for word in words {
        if *word != first {
            same = false;
        }
    }
    same
}

// Writes the words of each piece along its runs.
fn write(table: &mut Table, pieces: &[Piece], words: SeenWords<'_>)
    requires { (id : List ℕ) → MayWrite pieces.now id (length (words_seen words)) (found table.old.entries id) }
    ensures { (id : List ℕ) → found table.new.entries id
        ≡ pieces_written pieces.now id (words_seen words.entry) (found table.old.entries id) }
{
    for piece in pieces {
        write_piece(table, piece, words);
    }
}

fn write_piece(table: &mut Table, piece: &Piece, words: SeenWords<'_>)
    requires { (id : List ℕ) → MayWrite (piece.now ∷ []) id (length (words_seen words)) (found table.old.entries id) }
    ensures { (id : List ℕ) → found table.new.entries id
        ≡ pieces_written (piece.now ∷ []) id (words_seen words.entry) (found table.old.entries id) }
{
    let Some(staged) = table.get_mut(piece.id.items()) else {
        unreachable!();
    };
    write_runs(staged, piece.runs.items(), words);
}

fn write_runs(staged: &mut Staged, runs: &[Run], words: SeenWords<'_>)
    requires { AllByRecursion (λ run. IsRunInside run (length (words_seen words)) (length staged.old)) runs.now }
    ensures { staged.new ≡ runs_written runs.now (words_seen words.entry) staged.old }
{
    for run in runs {
        write_run(staged, *run, words);
    }
}

fn write_run(staged: &mut Staged, run: Run, words: SeenWords<'_>)
    requires { IsRunInside run (length (words_seen words)) (length staged.old) }
    ensures { staged.new ≡ pairs_written (pairs_of run) (words_seen words.entry) staged.old }
{
    match words {
        SeenWords::Each { words } => staged.write_run(&run, words),
        SeenWords::One { word, count: _ } => write_one(staged, run, word),
    }
}

// Writes one word for each pair of a run.
fn write_one(staged: &mut Staged, run: Run, word: u64)
    requires { (count : ℕ) × IsRunInside run count (length staged.old) }
    ensures { (count : ℕ) → IsRunInside run count (length staged.old)
        → staged.new ≡ pairs_written (pairs_of run) (replicate count word) staged.old }
{
    let mut first = run;
    first.view = 0;
    first.view_step = 0;
    staged.write_run(&first, &[word]);
}
