// Runs that were staged one behind another in a chunk. The words of each stand one after another in a list of all words, from its `view` on; a run of
// one word has it there once, and the view step 0.
ghost use Rattle.std.specs.Prelude.{◌≡◌, ◌≢◌, ℕ, ◌+◌, ◌*◌, ◌/◌, ◌-◌, ◌<◌, ◌≤◌, ◌^◌, ◌↔◌, pos, ◌+ℤ◌, ◌*ℤ◌, ◌≤ℤ◌, false, List, Option, Some, None, length, replicate, slice_index, slice_index_or, unsigned_abs, vec_capacity, IfNone, IfSome, IsSome, IsTrue};
ghost use Rattle.cells.specs.Dense.{DenseCells};
ghost use Rattle.cells.specs.Numbers.{IsWord};
ghost use Rattle.cells.specs.Runs.{view_place, chunk_place, IsRunInside, pairs_of, pairs_put};
ghost use Rattle.rebase_writes.specs.Runs.{pairs_written, pairs_shown};
ghost use Rattle.rebase_writes.specs.Marks.{is_marked, marks_of};
ghost use Rattle.rebase_writes.specs.Staged.{staged_at, staged_cells, laid_over, AreWords};
ghost use Rattle.rebase_writes.specs.Rising.{IsForward, AreRising, IsBehind, IsCopied, last_place, runs_staged};

use crate::marks::mark;
use crate::run::pair_at;
use cells::{Dense, Run};

/// The word that is staged at a place, if there is one.
pub(crate) fn word_at(runs: &[Run], words: &[u64], place: usize) -> Option<u64>
    requires { AreRising (length words.now) (2 ^ 24) runs.now }
    ensures some { IfSome result (λ word. (cells : List (Option ℕ))
        → AreRising (length words.now) (length cells) runs.now
        → staged_at (runs_staged runs.now words.now cells) place ≡ Some word) }
    ensures none { IfNone result ((cells : List (Option ℕ))
        → staged_at (runs_staged runs.now words.now cells) place ≡ staged_at cells place) }
{
    let count = begun(runs, place);
    if count == 0 {
        return None;
    }
    let run = &runs[count - 1];
    match pair_of(run, place) {
        Some(k) => Some(words[run.view as usize + run.view_step as usize * k as usize]),
        None => None,
    }
}

// How many runs begin at a place or before it.
fn begun(runs: &[Run], place: usize) -> usize
    requires { (i j : ℕ) (d : Run) → i < j → j < length runs.now
        → (slice_index_or runs.now i d).chunk < (slice_index_or runs.now j d).chunk }
    ensures few { result ≤ length runs.now }
    ensures front { (i : ℕ) (d : Run) → i < result → (slice_index_or runs.now i d).chunk ≤ place }
    ensures back { (i : ℕ) (d : Run) → result ≤ i → i < length runs.now → place < (slice_index_or runs.now i d).chunk }
{
    let mut low = 0;
    let mut high = runs.len();
    while low < high {
        let middle = low + (high - low) / 2;
        if runs[middle].chunk as usize <= place {
            low = middle + 1;
        } else {
            high = middle;
        }
    }
    low
}

// The pair of a run that has a place, if there is one.
fn pair_of(run: &Run, place: usize) -> Option<u32>
    requires { IsForward run.now }
    ensures some { IfSome result (λ k. (k < run.now.len) × (chunk_place run.now k ≡ place)) }
    ensures none { IfNone result ((k : ℕ) → k < run.now.len → chunk_place run.now k ≢ place) }
{
    let first = run.chunk as usize;
    if place < first {
        return None;
    }
    let ahead = place - first;
    let stride = stride_of(run);
    let k = ahead / stride;
    if k < run.len as usize && k * stride == ahead {
        Some(k as u32)
    } else {
        None
    }
}

fn stride_of(run: &Run) -> usize
    requires { pos 1 ≤ℤ run.now.chunk_step }
    ensures { result ≡ unsigned_abs run.now.chunk_step }
{
    run.chunk_step as usize
}

/// Stages the words of a view along a run behind the runs that are there, where it goes forward and there is room. Whether it did; else
/// nothing is changed.
pub(crate) fn add_run(
    runs: &mut Vec<Run>,
    kept: &mut Vec<u64>,
    cells: usize,
    run: &Run,
    words: &[u64],
) -> bool
    requires inside { IsRunInside run.now (length words.now) cells }
    requires rising { AreRising (length kept.old.items) cells runs.old.items }
    requires small { cells ≤ 2 ^ 24 }
    requires few { length kept.old.items ≤ cells }
    requires room { cells ≤ vec_capacity kept.old }
    ensures rising { AreRising (length kept.new.items) cells runs.new.items }
    ensures few { length kept.new.items ≤ cells }
    ensures room { cells ≤ vec_capacity kept.new }
    ensures added { IsTrue result → (staged : List (Option ℕ)) → runs_staged runs.new.items kept.new.items staged
        ≡ pairs_written (pairs_of run.now) words.now (runs_staged runs.old.items kept.old.items staged) }
    ensures same { result ≡ false → (staged : List (Option ℕ)) → runs_staged runs.new.items kept.new.items staged
        ≡ runs_staged runs.old.items kept.old.items staged }
{
    if run.len == 0 {
        return true;
    }
    let count = kept.len();
    if run.len as usize > cells - count || runs.len() == runs.capacity() {
        return false;
    }
    let Some(next) = run_behind(runs, count as u32, run) else {
        return false;
    };
    if is_one_word(run, words) {
        add_one(runs, kept, run, next, words);
        return true;
    }
    gather(run, words, kept);
    put(runs, next);
    true
}

// A run of fewer pairs keeps its words one by one, so that runs don't become many where rows of one word stand among others.
const FEW_PAIRS: u32 = 64;

// Whether the words of all pairs are the same: by the view step, or where a run has many pairs, by the words.
fn is_one_word(run: &Run, words: &[u64]) -> bool
    requires some { 1 ≤ run.now.len }
    requires inside { (k : ℕ) → k < run.now.len → view_place run.now k < length words.now }
    ensures { IsTrue result → (k : ℕ) → k < run.now.len
        → slice_index words.now (view_place run.now k) ≡ slice_index words.now (view_place run.now 0) }
{
    if run.view_step == 0 {
        return true;
    }
    if run.len < FEW_PAIRS {
        return false;
    }
    let first = words[run.view as usize];
    if run.view_step == 1 {
        let from = run.view as usize;
        return is_each(&words[from..from + run.len as usize], first);
    }
    for k in 0..run.len {
        if words[run.view as usize + run.view_step as usize * k as usize] != first {
            return false;
        }
    }
    true
}

// Whether each word is this one. Where the last isn't, the others aren't looked at; else all are, so that the loop takes several at a time.
fn is_each(words: &[u64], word: u64) -> bool
    requires some { 1 ≤ length words.now }
    ensures { IsTrue result → (k : ℕ) → k < length words.now → slice_index words.now k ≡ word }
{
    if words[words.len() - 1] != word {
        return false;
    }
    let mut same = true;
    for other in words {
        if *other != word {
            same = false;
        }
    }
    same
}

// Stages the one word of a run behind the runs that are there.
fn add_one(runs: &mut Vec<Run>, kept: &mut Vec<u64>, run: &Run, next: Run, words: &[u64])
    requires behind { IsBehind runs.old.items (length kept.old.items) run.now next }
    requires inside { IsRunInside run.now (length words.now) (2 ^ 24) }
    requires one { (k : ℕ) → k < run.now.len
        → slice_index words.now (view_place run.now k) ≡ slice_index words.now (view_place run.now 0) }
    requires rising { AreRising (length kept.old.items) (2 ^ 24) runs.old.items }
    requires few { length kept.old.items < 2 ^ 24 }
    requires room { length kept.old.items < vec_capacity kept.old }
    requires runs_room { length runs.old.items < vec_capacity runs.old }
    ensures few { length kept.new.items ≤ length kept.old.items + 1 }
    ensures rising { (cells : ℕ) → IsRunInside run.now (length words.now) cells
        → AreRising (length kept.old.items) cells runs.old.items
        → AreRising (length kept.new.items) cells runs.new.items }
    ensures room { vec_capacity kept.old ≤ vec_capacity kept.new }
    ensures added { (staged : List (Option ℕ)) → runs_staged runs.new.items kept.new.items staged
        ≡ pairs_written (pairs_of run.now) words.now (runs_staged runs.old.items kept.old.items staged) }
{
    let word = words[run.view as usize];
    let view = place_for(kept, word);
    let mut one = next;
    one.view = view as u32;
    one.view_step = 0;
    put(runs, one);
}

// A place at which a word is kept: the last one where it is there, else one more.
fn place_for(kept: &mut Vec<u64>, word: u64) -> usize
    requires room { length kept.old.items < vec_capacity kept.old }
    ensures room { vec_capacity kept.old ≤ vec_capacity kept.new }
    ensures longer { length kept.old.items ≤ length kept.new.items }
    ensures inside { result < length kept.new.items }
    ensures few { length kept.new.items ≤ length kept.old.items + 1 }
    ensures word { slice_index kept.new.items result ≡ word }
    ensures front { (place : ℕ) → place < length kept.old.items
        → slice_index kept.new.items place ≡ slice_index kept.old.items place }
{
    let count = kept.len();
    if count > 0 && kept[count - 1] == word {
        return count - 1;
    }
    let Ok(()) = kept.push(word) else {
        unreachable!();
    };
    count
}

// The run as it is kept, its words from a place on, where it goes forward and begins behind the others, and no earlier than its words.
fn run_behind(runs: &[Run], view: u32, run: &Run) -> Option<Run>
    requires rising { AreRising view (2 ^ 24) runs.now }
    requires some { 1 ≤ run.now.len }
    ensures { IfSome result (λ next. IsBehind runs.now view run.now next) }
{
    if view > run.chunk {
        return None;
    }
    if !begins_behind(runs, run) {
        return None;
    }
    let chunk_step = forward_step(run)?;
    Some(Run {
        view,
        view_step: 1,
        chunk: run.chunk,
        chunk_step,
        len: run.len,
    })
}

// Whether a run begins behind the end of all others.
fn begins_behind(runs: &[Run], run: &Run) -> bool
    requires rising { (words : ℕ) × AreRising words (2 ^ 24) runs.now }
    ensures { IsTrue result → (i : ℕ) (d : Run) → i < length runs.now
        → last_place (slice_index_or runs.now i d) < run.now.chunk }
{
    let count = runs.len();
    if count == 0 {
        return true;
    }
    if run.chunk as usize <= place_of_last(&runs[count - 1]) {
        return false;
    }
    true
}

// The step by which a run's places go forward, where they do.
fn forward_step(run: &Run) -> Option<i64>
    requires { 1 ≤ run.now.len }
    ensures { IfSome result (λ step. (pos 1 ≤ℤ step) × ((k : ℕ) → k < run.now.len
        → unsigned_abs (pos run.now.chunk +ℤ step *ℤ pos k) ≡ chunk_place run.now k)) }
{
    if run.len == 1 {
        return Some(1);
    }
    if run.chunk_step < 1 {
        return None;
    }
    Some(run.chunk_step)
}

fn place_of_last(run: &Run) -> usize
    requires some { 1 ≤ run.now.len }
    requires inside { (words : ℕ) × IsRunInside run.now words (2 ^ 24) }
    ensures { result ≡ last_place run.now }
{
    let place = i64::from(run.chunk) + run.chunk_step * i64::from(run.len - 1);
    place as usize
}

// Puts the words of a view along a run behind those that are kept.
fn gather(run: &Run, words: &[u64], kept: &mut Vec<u64>)
    requires some { 1 ≤ run.now.len }
    requires inside { (k : ℕ) → k < run.now.len → view_place run.now k < length words.now }
    requires room { length kept.old.items + run.now.len ≤ vec_capacity kept.old }
    ensures room { vec_capacity kept.old ≤ vec_capacity kept.new }
    ensures count { length kept.new.items ≡ length kept.old.items + run.now.len }
    ensures front { (place : ℕ) → place < length kept.old.items
        → slice_index kept.new.items place ≡ slice_index kept.old.items place }
    ensures behind { (k : ℕ) → k < run.now.len
        → slice_index kept.new.items (length kept.old.items + k) ≡ slice_index words.now (view_place run.now k) }
{
    if run.view_step == 1 {
        let from = run.view as usize;
        let Ok(()) = kept.extend_from_slice(&words[from..from + run.len as usize]) else {
            unreachable!();
        };
        return;
    }
    for k in 0..run.len {
        let Ok(()) = kept.push(words[run.view as usize + run.view_step as usize * k as usize])
        else {
            unreachable!();
        };
    }
}

// Puts a run behind the others: as a part of the last one where that ends just before it, by places and by words.
fn put(runs: &mut Vec<Run>, next: Run)
    requires room { length runs.old.items < vec_capacity runs.old }
    requires forward { IsForward next }
    requires ahead { next.view ≤ next.chunk }
    requires inside { IsRunInside next (2 ^ 24) (2 ^ 24) }
    requires others { (count : ℕ) × ((count ≤ 2 ^ 24) × AreRising count (2 ^ 24) runs.old.items) }
    requires behind { (i : ℕ) (d : Run) → i < length runs.old.items
        → last_place (slice_index_or runs.old.items i d) < next.chunk }
    ensures rising { (count words cells : ℕ) → count ≤ words → IsRunInside next words cells
        → AreRising count cells runs.old.items
        → AreRising words cells runs.new.items }
    ensures staged { (words : List ℕ) (staged : List (Option ℕ)) → runs_staged runs.new.items words staged
        ≡ pairs_written (pairs_of next) words (runs_staged runs.old.items words staged) }
{
    let count = runs.len();
    if count > 0 {
        let mut last = runs[count - 1];
        if is_joined(&last, &next) {
            last.len += next.len;
            runs[count - 1] = last;
            return;
        }
    }
    let Ok(()) = runs.push(next) else {
        unreachable!();
    };
}

fn is_joined(last: &Run, next: &Run) -> bool
    requires last { IsRunInside last.now (2 ^ 24) (2 ^ 24) }
    requires some { 1 ≤ last.now.len }
    ensures { IsTrue result → (last.now.chunk_step ≡ pos 1) × ((next.now.chunk_step ≡ pos 1)
        × ((last.now.chunk + last.now.len ≡ next.now.chunk)
        × ((k : ℕ) → view_place last.now (last.now.len + k) ≡ view_place next.now k))) }
{
    last.chunk_step == 1
        && next.chunk_step == 1
        && u64::from(last.chunk) + u64::from(last.len) == u64::from(next.chunk)
        && go_on(last, next)
}

// Whether the words of a run begin where those of the one before it end, or are the same one.
fn go_on(last: &Run, next: &Run) -> bool
    requires last { IsRunInside last.now (2 ^ 24) (2 ^ 24) }
    ensures { IsTrue result → (k : ℕ) → view_place last.now (last.now.len + k) ≡ view_place next.now k }
{
    let behind = u64::from(last.view) + u64::from(last.view_step) * u64::from(last.len);
    last.view_step == next.view_step && behind == u64::from(next.view)
}

/// Takes the words that runs have staged to the places of their cells, and marks these. There is room for it.
pub(crate) fn spread(runs: &[Run], cells: usize, words: &mut Vec<u64>, marks: &mut Vec<u64>)
    requires rising { AreRising (length words.old.items) cells runs.now }
    requires small { cells ≤ 2 ^ 24 }
    requires few { length words.old.items ≤ cells }
    requires words_room { cells ≤ vec_capacity words.old }
    requires marks_room { cells / 64 + 1 ≤ vec_capacity marks.old }
    ensures full { length words.new.items ≡ cells }
    ensures marked { cells ≤ 64 * length marks.new.items }
    ensures staged { staged_cells (marks_of cells marks.new.items) words.new.items
        ≡ runs_staged runs.now words.old.items (replicate cells None) }
{
    marks.clear();
    let Ok(()) = marks.resize(cells / 64 + 1, 0) else {
        unreachable!();
    };
    let Ok(()) = words.resize(cells, 0) else {
        unreachable!();
    };
    spread_runs(runs, marks.as_mut_slice(), words.as_mut_slice());
}

// The same where all words are there and nothing is marked. The last run goes first: none of its words is put over one that is still to be read,
// since no word stands behind its place.
fn spread_runs(runs: &[Run], marks: &mut [u64], words: &mut [u64])
    requires rising { AreRising (length words.old) (length words.old) runs.now }
    requires small { length words.old ≤ 2 ^ 24 }
    requires room { length words.old ≤ 64 * length marks.old }
    requires none { (place : ℕ) → is_marked marks.old place ≡ false }
    ensures { (count : ℕ) → length words.old ≡ count → staged_cells (marks_of count marks.new) words.new
        ≡ runs_staged runs.now words.old (replicate count None) }
{
    let mut left = runs.len();
    while left > 0 {
        left -= 1;
        spread_run(&runs[left], marks, words);
    }
}

// Takes the words of a run to the places of its pairs, the last first, and marks these.
fn spread_run(run: &Run, marks: &mut [u64], words: &mut [u64])
    requires forward { IsForward run.now }
    requires ahead { run.now.view ≤ run.now.chunk }
    requires inside { IsRunInside run.now (length words.old) (length words.old) }
    requires room { length words.old ≤ 64 * length marks.old }
    ensures { IsCopied run.now 0 marks.old words.old marks.new words.new }
{
    let mut left = run.len;
    while left > 0 {
        left -= 1;
        let (view, chunk) = pair_at(run, left);
        let word = words[view];
        mark(marks, chunk);
        words[chunk] = word;
    }
}

/// Puts the words of runs in place of a chunk's own.
pub(crate) fn lay_runs(runs: &[Run], kept: &[u64], chunk: &mut Dense)
    requires rising { AreRising (length kept.now) (length chunk.old.words) runs.now }
    requires words { AreWords chunk.old.dtype
        (runs_staged runs.now kept.now (replicate (length chunk.old.words) None)) }
    ensures { chunk.new ≡ record chunk.old {
      words =
          laid_over (runs_staged runs.now kept.now (replicate (length chunk.old.words) None)) chunk.old.words;
    } }
{
    for run in runs {
        lay_run(run, kept, chunk);
    }
}

/// Puts the words of a run in place of a chunk's own. They are handed on alone, since others may be of no cell that counts.
pub(crate) fn lay_run(run: &Run, kept: &[u64], chunk: &mut Dense)
    requires forward { IsForward run.now }
    requires inside { IsRunInside run.now (length kept.now) (length chunk.old.words) }
    requires words { (k : ℕ) → k < run.now.len → IsWord chunk.old.dtype (slice_index kept.now (view_place run.now k)) }
    ensures { chunk.new ≡ record chunk.old { words = pairs_put (pairs_of run.now) kept.now chunk.old.words } }
{
    let from = run.view as usize;
    let mut alone = *run;
    alone.view = 0;
    chunk.write_run(&alone, &kept[from..from + word_count(run)]);
}

// How many words a run has: one, or one for each pair.
fn word_count(run: &Run) -> usize
    requires { IsForward run.now }
    ensures some { 1 ≤ result }
    ensures count { result ≡ 1 + run.now.view_step * (run.now.len - 1) }
{
    if run.view_step == 0 {
        1
    } else {
        run.len as usize
    }
}

/// Puts the words that are staged by runs into a view along a run.
pub(crate) fn show_staged(runs: &[Run], kept: &[u64], run: &Run, out: &mut [u64])
    requires rising { (cells : ℕ)
        × (AreRising (length kept.now) cells runs.now
        × (IsRunInside run.now (length out.old) cells × (cells ≤ 2 ^ 24))) }
    ensures { (cells : ℕ) → AreRising (length kept.now) cells runs.now → IsRunInside run.now (length out.old) cells
        → out.new ≡ pairs_shown (pairs_of run.now) (runs_staged runs.now kept.now (replicate cells None)) out.old }
{
    for pair in 0..run.len {
        let (view, chunk) = pair_at(run, pair);
        if let Some(word) = word_at(runs, kept, chunk) {
            out[view] = word;
        }
    }
}

/// Whether a word is staged at a place.
pub(crate) fn is_staged(runs: &[Run], kept: &[u64], place: usize) -> bool
    requires { AreRising (length kept.now) (2 ^ 24) runs.now }
    ensures some { IsTrue result → (cells : ℕ) → AreRising (length kept.now) cells runs.now
        → IsSome (staged_at (runs_staged runs.now kept.now (replicate cells None)) place) }
    ensures none { result ≡ false → (cells : ℕ)
        → staged_at (runs_staged runs.now kept.now (replicate cells None)) place ≡ None }
{
    match word_at(runs, kept, place) {
        Some(_) => true,
        None => false,
    }
}

fn is_row(run: &Run) -> bool
    ensures { IsTrue result → run.now.chunk_step ≡ pos 1 }
{
    run.chunk_step == 1
}

/// Whether each place of a range has a staged word.
pub(crate) fn cover_range(runs: &[Run], kept: &[u64], from: usize, to: usize) -> bool
    requires rising { AreRising (length kept.now) (2 ^ 24) runs.now }
    requires to { to ≤ 2 ^ 24 }
    ensures { (cells : ℕ) → AreRising (length kept.now) cells runs.now → to ≤ cells
        → IsTrue result ↔ ((place : ℕ) → from ≤ place → place < to
        → IsSome (staged_at (runs_staged runs.now kept.now (replicate cells None)) place)) }
{
    if has_range(runs, from, to) {
        return true;
    }
    for place in from..to {
        if !is_staged(runs, kept, place) {
            return false;
        }
    }
    true
}

// Whether one run without gaps has each place of a range.
fn has_range(runs: &[Run], from: usize, to: usize) -> bool
    requires rising { (words : ℕ) × AreRising words (2 ^ 24) runs.now }
    ensures { IsTrue result → (words : List ℕ) (cells : List (Option ℕ))
        → AreRising (length words) (length cells) runs.now
        → (place : ℕ) → from ≤ place → place < to → IsSome (staged_at (runs_staged runs.now words cells) place) }
{
    let count = begun(runs, from);
    if count == 0 {
        return false;
    }
    let run = &runs[count - 1];
    if is_row(run) && to <= run.chunk as usize + run.len as usize {
        return true;
    }
    false
}

/// Whether no place of a range has a staged word.
pub(crate) fn spare_range(runs: &[Run], kept: &[u64], from: usize, to: usize) -> bool
    requires rising { AreRising (length kept.now) (2 ^ 24) runs.now }
    requires to { to ≤ 2 ^ 24 }
    ensures { (cells : ℕ) → AreRising (length kept.now) cells runs.now → to ≤ cells
        → IsTrue result ↔ ((place : ℕ) → from ≤ place → place < to
        → staged_at (runs_staged runs.now kept.now (replicate cells None)) place ≡ None) }
{
    if ends_before(runs, from, to) {
        return true;
    }
    for place in from..to {
        if is_staged(runs, kept, place) {
            return false;
        }
    }
    true
}

// Whether the runs that begin before the end of a range all end before its begin.
fn ends_before(runs: &[Run], from: usize, to: usize) -> bool
    requires rising { (words : ℕ) × AreRising words (2 ^ 24) runs.now }
    ensures { IsTrue result → (words : List ℕ) (cells : List (Option ℕ)) (place : ℕ) → from ≤ place → place < to
        → staged_at (runs_staged runs.now words cells) place ≡ staged_at cells place }
{
    if to <= from {
        return true;
    }
    let count = begun(runs, to - 1);
    if count == 0 {
        return true;
    }
    if from <= place_of_last(&runs[count - 1]) {
        return false;
    }
    true
}
