ghost use Rattle.std.specs.Prelude.{◌≡◌, ℕ, ◌<◌, ◌≤◌, ◌↔◌, None, Some, length, replicate, slice_index, slice_set, unwrap_or, IfOk, IsTrue, IsSome};
ghost use Rattle.cells.specs.Dense.{DenseCells, IsDense};
ghost use Rattle.rebase_writes.specs.Staged.{staged_at, AreWords, CoverAll, laid_over};
ghost use Rattle.cells.specs.Runs.{IsRunInside, pairs_of};
ghost use Rattle.rebase_writes.specs.Runs.{pairs_written, pairs_shown};

use crate::marks::{are_marked, are_unmarked, is_marked};
use crate::rising::{add_run, cover_range, lay_runs, show_staged, spare_range, spread, word_at};
use crate::run::{lay_marked, marked_word, show_run, stage_cell, stage_run};
use cells::{Dense, Run};
use std::alloc::{AllocError, Global};
use std::marker::Model;

// A chunk of no more cells, or of more, is kept by marks and words from the first.
const FEW_CELLS: usize = 64;

const MOST_CELLS: usize = 1 << 24;

/// Cells that are to be laid over a chunk, one per place of the chunk in C order. A contract sees at each place the staged
/// word, or none.
///
/// Kept are runs with their words as long as each begins behind the end of the one before, and a mark and a word for each cell from then on. A mark
/// is a bit.
#[derive(Debug, Drop)]
pub struct Staged {
    by_runs: bool,
    cells: usize,
    runs: Vec<Run>,
    words: Vec<u64>,
    marks: Vec<u64>,
}

impl Model for Staged {
    ghost use Rattle.std.specs.Prelude.{ℕ, List, Option, vec_capacity};
    ghost use Rattle.rebase_writes.specs.Rising.{cells_kept, AreKept};

    ghost Value = { List (Option ℕ) };

    ghost view = { λ s. cells_kept s.by_runs s.cells s.runs.items s.words.items s.marks.items };

    ghost invariant = { λ s. AreKept s.by_runs s.cells s.runs.items s.words.items s.marks.items (vec_capacity s.words)
        (vec_capacity s.marks) };
}

impl Staged {
    /// No cell staged, for a chunk of so many cells.
    ///
    /// # Errors
    ///
    /// `AllocError` where there is no memory.
    pub fn new(alloc: Global, cells: usize) -> Result<Staged, AllocError>
        ensures { IfOk result (λ staged. staged ≡ replicate cells None) }
    {
        if cells <= FEW_CELLS || cells > MOST_CELLS {
            let marks = vec![in alloc; 0; cells / 64 + 1]?;
            let words = vec![in alloc; 0; cells]?;
            return Ok(Staged {
                by_runs: false,
                cells,
                runs: Vec::new(alloc),
                words,
                marks,
            });
        }
        // Room is taken now, so that no write wants memory. What isn't written isn't touched.
        let runs = Vec::with_capacity(alloc, 64 + cells / 64)?;
        let words = Vec::with_capacity(alloc, cells)?;
        let marks = Vec::with_capacity(alloc, cells / 64 + 1)?;
        Ok(Staged {
            by_runs: true,
            cells,
            runs,
            words,
            marks,
        })
    }

    /// Stages a word at a place. A word that is staged there already gives way.
    pub fn write_cell(&mut self, place: usize, word: u64)
        requires { place < length self.old }
        ensures { self.new ≡ slice_set self.old place (Some word) }
    {
        if self.by_runs {
            spread(&self.runs, self.cells, &mut self.words, &mut self.marks);
            self.by_runs = false;
        }
        stage_cell(&mut self.marks, &mut self.words, place, word);
    }

    /// Stages the words of a view along a run: for each pair in turn, the view's word at the pair's place in the chunk.
    pub fn write_run(&mut self, run: &Run, words: &[u64])
        requires { IsRunInside run.now (length words.now) (length self.old) }
        ensures { self.new ≡ pairs_written (pairs_of run.now) words.now self.old }
    {
        if self.by_runs {
            if add_run(&mut self.runs, &mut self.words, self.cells, run, words) {
                return;
            }
            spread(&self.runs, self.cells, &mut self.words, &mut self.marks);
            self.by_runs = false;
        }
        stage_run(&mut self.marks, &mut self.words, run, words);
    }

    /// Puts staged words into a view along a run: for each pair in turn, the word that is staged at the pair's place in the chunk, where there
    /// is one, at the pair's place in the view.
    pub fn read_run(&self, run: &Run, out: &mut [u64])
        requires { IsRunInside run.now (length out.old) (length self.now) }
        ensures { out.new ≡ pairs_shown (pairs_of run.now) self.now out.old }
    {
        if self.by_runs {
            show_staged(&self.runs, &self.words, run, out);
        } else {
            show_run(&self.marks, &self.words, run, out);
        }
    }

    /// Whether a word is staged at a place.
    pub fn covers(&self, place: usize) -> bool
        requires { place < length self.now }
        ensures { IsTrue result ↔ IsSome (staged_at self.now place) }
    {
        if self.by_runs {
            word_at(&self.runs, &self.words, place).is_some()
        } else {
            is_marked(&self.marks, place)
        }
    }

    /// The word that is staged at a place, if there is one.
    pub fn word(&self, place: usize) -> Option<u64>
        requires { place < length self.now }
        ensures { result ≡ staged_at self.now place }
    {
        if self.by_runs {
            word_at(&self.runs, &self.words, place)
        } else {
            marked_word(&self.marks, &self.words, place)
        }
    }

    /// Whether a word is staged at each place of a range, which ends before `to`.
    pub fn covers_range(&self, from: usize, to: usize) -> bool
        requires { to ≤ length self.now }
        ensures { IsTrue result ↔ ((place : ℕ) → from ≤ place → place < to → IsSome (staged_at self.now place)) }
    {
        if self.by_runs {
            cover_range(&self.runs, &self.words, from, to)
        } else {
            are_marked(&self.marks, from, to)
        }
    }

    /// Whether no word is staged at any place of a range, which ends before `to`.
    pub fn spares_range(&self, from: usize, to: usize) -> bool
        requires { to ≤ length self.now }
        ensures { IsTrue result ↔ ((place : ℕ) → from ≤ place → place < to → staged_at self.now place ≡ None) }
    {
        if self.by_runs {
            spare_range(&self.runs, &self.words, from, to)
        } else {
            are_unmarked(&self.marks, from, to)
        }
    }

    /// Whether a word is staged at each place that lies inside the array, so that nothing of the chunk is left to be read.
    pub fn is_whole(&self, inside: &[bool]) -> bool
        requires { length inside.now ≡ length self.now }
        ensures { IsTrue result ↔ CoverAll self.now inside.now }
    {
        for (place, within) in inside.iter().enumerate() {
            if *within && !self.covers(place) {
                return false;
            }
        }
        true
    }

    /// The chunk with the staged words in place of its own.
    ///
    /// # Errors
    ///
    /// `AllocError` where there is no memory.
    pub fn over(&self, alloc: Global, base: &Dense) -> Result<Dense, AllocError>
        requires size { length self.now ≡ length base.now.words }
        requires words { AreWords base.now.dtype self.now }
        ensures value { IfOk result (λ dense.
            dense ≡ record base.now { words = laid_over self.now base.now.words }) }
        ensures cells { IfOk result (λ dense. (place : ℕ) → place < length self.now →
            slice_index dense.words place ≡ unwrap_or (staged_at self.now place) (slice_index base.now.words place)) }
    {
        let mut dense = base.copy(alloc)?;
        self.lay_over(&mut dense);
        Ok(dense)
    }

    /// Puts the staged words in place of the chunk's own.
    pub fn lay_over(&self, chunk: &mut Dense)
        requires size { length self.now ≡ length chunk.old.words }
        requires words { AreWords chunk.old.dtype self.now }
        ensures value { chunk.new ≡ record chunk.old { words = laid_over self.now chunk.old.words } }
        ensures cells { (place : ℕ) → place < length self.now →
            slice_index chunk.new.words place ≡ unwrap_or (staged_at self.now place)
            (slice_index chunk.old.words place) }
    {
        if self.by_runs {
            lay_runs(&self.runs, &self.words, chunk);
        } else {
            lay_marked(&self.marks, &self.words, chunk);
        }
    }
}
