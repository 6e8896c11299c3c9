ghost use Rattle.std.specs.Prelude.{◌≡◌, ℕ, ◌+◌, ◌*◌, ◌<◌, ◌≤◌, ◌^◌, pos, ◌≤ℤ◌, ◌<ℤ◌, true, false, Some, length, slice_index, slice_set};
ghost use Rattle.cells.specs.Dense.{DenseCells};
ghost use Rattle.cells.specs.Numbers.{IsWord};
ghost use Rattle.cells.specs.Runs.{view_place, chunk_number, chunk_place, IsRunInside, pairs_of, pairs_put};
ghost use Rattle.rebase_writes.specs.Marks.{is_marked, marks_of};
ghost use Rattle.rebase_writes.specs.Runs.{pairs_written, pairs_read, pairs_shown, row_at};
ghost use Rattle.rebase_writes.specs.Staged.{staged_cells, staged_at, laid_over};

use crate::marks::{bare_from, full_from, is_marked, mark, mark_range};
use crate::rising::lay_run;
use cells::{Dense, Run};

/// Puts the words of a chunk into a view along a run: for each pair in turn, the chunk's word at the pair's place in the view.
pub fn read_run(dense: &Dense, run: &Run, out: &mut [u64])
    requires { IsRunInside run.now (length out.old) (length dense.now.words) }
    ensures { out.new ≡ pairs_read (pairs_of run.now) dense.now.words out.old }
{
    dense.read_run(run, out);
}

/// Stages a word at a place, in marks and words.
pub(crate) fn stage_cell(marks: &mut [u64], staged: &mut [u64], place: usize, word: u64)
    requires room { length staged.old ≤ 64 * length marks.old }
    requires inside { place < length staged.old }
    ensures { (count : ℕ) → length staged.old ≡ count → staged_cells (marks_of count marks.new) staged.new
        ≡ slice_set (staged_cells (marks_of count marks.old) staged.old) place (Some word) }
{
    mark(marks, place);
    staged[place] = word;
}

/// Stages the words of a view along a run, in marks and words.
pub(crate) fn stage_run(marks: &mut [u64], staged: &mut [u64], run: &Run, words: &[u64])
    requires room { length staged.old ≤ 64 * length marks.old }
    requires inside { IsRunInside run.now (length words.now) (length staged.old) }
    ensures { (count : ℕ) → length staged.old ≡ count → staged_cells (marks_of count marks.new) staged.new
        ≡ pairs_written (pairs_of run.now) words.now (staged_cells (marks_of count marks.old) staged.old) }
{
    if run.chunk_step == 1 {
        stage_row(marks, staged, run, words);
        return;
    }
    for pair in 0..run.len {
        let (view, chunk) = pair_at(run, pair);
        stage_cell(marks, staged, chunk, words[view]);
    }
}

// The same of a run whose places stand one after another: their marks are set a word at a time.
fn stage_row(marks: &mut [u64], staged: &mut [u64], run: &Run, words: &[u64])
    requires step { run.now.chunk_step ≡ pos 1 }
    requires room { length staged.old ≤ 64 * length marks.old }
    requires inside { IsRunInside run.now (length words.now) (length staged.old) }
    ensures { (count : ℕ) → length staged.old ≡ count → staged_cells (marks_of count marks.new) staged.new
        ≡ pairs_written (pairs_of run.now) words.now (staged_cells (marks_of count marks.old) staged.old) }
{
    if run.len == 0 {
        return;
    }
    let from = run.chunk as usize;
    mark_range(marks, from, from + run.len as usize);
    for pair in 0..run.len {
        let (view, chunk) = pair_at(run, pair);
        staged[chunk] = words[view];
    }
}

/// Puts the staged words into a view along a run, from marks and words.
pub(crate) fn show_run(marks: &[u64], staged: &[u64], run: &Run, out: &mut [u64])
    requires room { length staged.now ≤ 64 * length marks.now }
    requires inside { IsRunInside run.now (length out.old) (length staged.now) }
    ensures { (count : ℕ) → length staged.now ≡ count
        → out.new ≡ pairs_shown (pairs_of run.now) (staged_cells (marks_of count marks.now) staged.now) out.old }
{
    for pair in 0..run.len {
        let (view, chunk) = pair_at(run, pair);
        if let Some(word) = marked_word(marks, staged, chunk) {
            out[view] = word;
        }
    }
}

/// The word that is staged at a place in marks and words, if there is one.
pub(crate) fn marked_word(marks: &[u64], staged: &[u64], place: usize) -> Option<u64>
    requires room { length staged.now ≤ 64 * length marks.now }
    requires inside { place < length staged.now }
    ensures { (count : ℕ) → length staged.now ≡ count
        → result ≡ staged_at (staged_cells (marks_of count marks.now) staged.now) place }
{
    if is_marked(marks, place) {
        Some(staged[place])
    } else {
        None
    }
}

/// Puts the words of marked places in place of a chunk's own.
pub(crate) fn lay_marked(marks: &[u64], staged: &[u64], chunk: &mut Dense)
    requires room { length staged.now ≤ 64 * length marks.now }
    requires size { length staged.now ≡ length chunk.old.words }
    requires words { (place : ℕ) → place < length staged.now → is_marked marks.now place ≡ true
        → IsWord chunk.old.dtype (slice_index staged.now place) }
    ensures { (count : ℕ) → length staged.now ≡ count → chunk.new
        ≡ record chunk.old { words = laid_over (staged_cells (marks_of count marks.now) staged.now) chunk.old.words } }
{
    let cells = chunk.count();
    let mut place = 0;
    while place < cells {
        let bare = bare_from(marks, place, cells);
        let full = full_from(marks, place, cells);
        if bare > 0 {
            place += bare;
        } else if full > 0 {
            lay_row(staged, place, full, chunk);
            place += full;
        } else {
            lay_cell(marks, staged, place, chunk);
            place += 1;
        }
    }
}

// Puts so many words from a place on in place of a chunk's own.
fn lay_row(staged: &[u64], place: usize, count: usize, chunk: &mut Dense)
    requires some { 1 ≤ count }
    requires inside { place + count ≤ length staged.now }
    requires small { length staged.now ≤ 2 ^ 24 }
    requires size { length staged.now ≡ length chunk.old.words }
    requires words { (k : ℕ) → k < count → IsWord chunk.old.dtype (slice_index staged.now (place + k)) }
    ensures { chunk.new ≡ record chunk.old { words = pairs_put (pairs_of (row_at place count)) staged.now chunk.old.words } }
{
    let row = Run {
        view: place as u32,
        view_step: 1,
        chunk: place as u32,
        chunk_step: 1,
        len: count as u32,
    };
    lay_run(&row, staged, chunk);
}

// Puts the word of a place, where it is marked, in place of a chunk's own.
fn lay_cell(marks: &[u64], staged: &[u64], place: usize, chunk: &mut Dense)
    requires room { place < 64 * length marks.now }
    requires inside { place < length staged.now }
    requires in_chunk { place < length chunk.old.words }
    requires word { is_marked marks.now place ≡ true → IsWord chunk.old.dtype (slice_index staged.now place) }
    ensures marked { is_marked marks.now place ≡ true
        → chunk.new ≡ record chunk.old { words = slice_set chunk.old.words place (slice_index staged.now place) } }
    ensures unmarked { is_marked marks.now place ≡ false → chunk.new ≡ chunk.old }
{
    if is_marked(marks, place) {
        chunk.set(place, staged[place]);
    }
}

/// The view's place and the chunk's place of pair `k`.
pub(crate) fn pair_at(run: &Run, k: u32) -> (usize, usize)
    requires in_view { view_place run.now k < 2 ^ 64 }
    requires from_first { pos 0 ≤ℤ chunk_number run.now k }
    requires to_last { chunk_number run.now k <ℤ pos (2 ^ 63) }
    ensures view { result.0 ≡ view_place run.now k }
    ensures chunk { result.1 ≡ chunk_place run.now k }
{
    let view = run.view as usize + run.view_step as usize * k as usize;
    let chunk = i64::from(run.chunk) + run.chunk_step * i64::from(k);
    (view, chunk as usize)
}
