// Items beside their words. Each arm has a loop of its own, in which the dtype is known when the program is built.
ghost use Rattle.std.specs.Prelude.{◌≡◌, ℕ, ◌+◌, ◌*◌, ◌<◌, ◌≤◌, ◌^◌, pos, false, true, ◌≤ℤ◌, ◌<ℤ◌, ◌↔◌, IsTrue, EachIndex, All, length, replicate, slice_index, slice_index_or, slice_set};
ghost use Rattle.cells.specs.Bytes.{byte_count, word_bytes};
ghost use Rattle.cells.specs.Numbers.{IsWord};
ghost use Rattle.cells.specs.Runs.{view_place, chunk_number, chunk_place, IsRunInside, pairs_of, pairs_put, pairs_taken};
ghost use Rattle.cells.specs.Items.{item_at, words_in, words_where};

use crate::dtype::Dtype;
use crate::element::{put, take};
use crate::run::Run;

/// The word of the item at a place.
pub(crate) fn item(dtype: Dtype, place: usize, bytes: &[u8]) -> u64
    requires { place * byte_count dtype + byte_count dtype ≤ length bytes.now }
    ensures { result ≡ item_at dtype bytes.now place }
{
    let size = dtype.byte_count();
    take(dtype, false, &bytes[place * size..place * size + size])
}

/// Puts a word as the item at a place.
#[inline(always)]
pub(crate) fn put_item(dtype: Dtype, place: usize, word: u64, bytes: &mut [u8])
    requires { place * byte_count dtype + byte_count dtype ≤ length bytes.old }
    ensures { (n : ℕ) → length bytes.old ≡ n * byte_count dtype → IsWord dtype word
        → words_in dtype n bytes.new ≡ slice_set (words_in dtype n bytes.old) place word }
{
    let size = dtype.byte_count();
    put(
        dtype,
        false,
        word,
        &mut bytes[place * size..place * size + size],
    );
}

// Puts a word as each item.
fn fill_items(dtype: Dtype, cells: usize, word: u64, bytes: &mut [u8])
    requires full { length bytes.old ≡ cells * byte_count dtype }
    requires small { cells ≤ 2 ^ 24 }
    requires word { IsWord dtype word }
    ensures { words_in dtype cells bytes.new ≡ replicate cells word }
{
    match dtype {
        Dtype::I8 => fill_each(Dtype::I8, cells, word, bytes),
        Dtype::U8 => fill_each(Dtype::U8, cells, word, bytes),
        Dtype::I16 => fill_each(Dtype::I16, cells, word, bytes),
        Dtype::U16 => fill_each(Dtype::U16, cells, word, bytes),
        Dtype::I32 => fill_each(Dtype::I32, cells, word, bytes),
        Dtype::U32 => fill_each(Dtype::U32, cells, word, bytes),
        Dtype::I64 => fill_each(Dtype::I64, cells, word, bytes),
        Dtype::U64 => fill_each(Dtype::U64, cells, word, bytes),
    }
}

/// Puts a word as each item of bytes that are all 0, which are items of the word 0 already.
pub(crate) fn fill_zeros(dtype: Dtype, cells: usize, word: u64, bytes: &mut [u8])
    requires zeros { bytes.old ≡ replicate (cells * byte_count dtype) 0 }
    requires small { cells ≤ 2 ^ 24 }
    requires word { IsWord dtype word }
    ensures { words_in dtype cells bytes.new ≡ replicate cells word }
{
    if word == 0 {
        return;
    }
    fill_items(dtype, cells, word, bytes);
}

#[inline(always)]
fn fill_each(dtype: Dtype, cells: usize, word: u64, bytes: &mut [u8])
    requires full { length bytes.old ≡ cells * byte_count dtype }
    requires small { cells ≤ 2 ^ 24 }
    requires word { IsWord dtype word }
    ensures { words_in dtype cells bytes.new ≡ replicate cells word }
{
    let size = dtype.byte_count();
    for place in 0..cells {
        put(
            dtype,
            false,
            word,
            &mut bytes[place * size..place * size + size],
        );
    }
}

/// Puts words as the items, one after another.
pub(crate) fn put_words(dtype: Dtype, words: &[u64], bytes: &mut [u8])
    requires full { length bytes.old ≡ length words.now * byte_count dtype }
    requires small { length words.now ≤ 2 ^ 24 }
    requires words { All (IsWord dtype) words.now }
    ensures { words_in dtype (length words.now) bytes.new ≡ words.now }
{
    match dtype {
        Dtype::I8 => put_each(Dtype::I8, words, bytes),
        Dtype::U8 => put_each(Dtype::U8, words, bytes),
        Dtype::I16 => put_each(Dtype::I16, words, bytes),
        Dtype::U16 => put_each(Dtype::U16, words, bytes),
        Dtype::I32 => put_each(Dtype::I32, words, bytes),
        Dtype::U32 => put_each(Dtype::U32, words, bytes),
        Dtype::I64 => put_each(Dtype::I64, words, bytes),
        Dtype::U64 => put_each(Dtype::U64, words, bytes),
    }
}

#[inline(always)]
fn put_each(dtype: Dtype, words: &[u64], bytes: &mut [u8])
    requires full { length bytes.old ≡ length words.now * byte_count dtype }
    requires small { length words.now ≤ 2 ^ 24 }
    requires words { All (IsWord dtype) words.now }
    ensures { words_in dtype (length words.now) bytes.new ≡ words.now }
{
    let size = dtype.byte_count();
    for place in 0..words.len() {
        put(
            dtype,
            false,
            words[place],
            &mut bytes[place * size..place * size + size],
        );
    }
}

/// Writes the words of the items, one after another.
pub(crate) fn take_words(dtype: Dtype, bytes: &[u8], words: &mut [u64])
    requires full { length bytes.now ≡ length words.old * byte_count dtype }
    requires small { length words.old ≤ 2 ^ 24 }
    ensures { words.new ≡ words_in dtype (length words.old) bytes.now }
{
    match dtype {
        Dtype::I8 => take_each(Dtype::I8, bytes, words),
        Dtype::U8 => take_each(Dtype::U8, bytes, words),
        Dtype::I16 => take_each(Dtype::I16, bytes, words),
        Dtype::U16 => take_each(Dtype::U16, bytes, words),
        Dtype::I32 => take_each(Dtype::I32, bytes, words),
        Dtype::U32 => take_each(Dtype::U32, bytes, words),
        Dtype::I64 => take_each(Dtype::I64, bytes, words),
        Dtype::U64 => take_each(Dtype::U64, bytes, words),
    }
}

#[inline(always)]
fn take_each(dtype: Dtype, bytes: &[u8], words: &mut [u64])
    requires full { length bytes.now ≡ length words.old * byte_count dtype }
    requires small { length words.old ≤ 2 ^ 24 }
    ensures { words.new ≡ words_in dtype (length words.old) bytes.now }
{
    let size = dtype.byte_count();
    for place in 0..words.len() {
        words[place] = take(dtype, false, &bytes[place * size..place * size + size]);
    }
}

/// Whether each item is that of a word.
pub(crate) fn are_all(dtype: Dtype, cells: usize, word: u64, bytes: &[u8]) -> bool
    requires full { length bytes.now ≡ cells * byte_count dtype }
    requires small { cells ≤ 2 ^ 24 }
    ensures { IsTrue result ↔ EachIndex (words_in dtype cells bytes.now) (λ k.
        slice_index (words_in dtype cells bytes.now) k ≡ word) }
{
    match dtype {
        Dtype::I8 => is_each(Dtype::I8, cells, word, bytes),
        Dtype::U8 => is_each(Dtype::U8, cells, word, bytes),
        Dtype::I16 => is_each(Dtype::I16, cells, word, bytes),
        Dtype::U16 => is_each(Dtype::U16, cells, word, bytes),
        Dtype::I32 => is_each(Dtype::I32, cells, word, bytes),
        Dtype::U32 => is_each(Dtype::U32, cells, word, bytes),
        Dtype::I64 => is_each(Dtype::I64, cells, word, bytes),
        Dtype::U64 => is_each(Dtype::U64, cells, word, bytes),
    }
}

#[inline(always)]
fn is_each(dtype: Dtype, cells: usize, word: u64, bytes: &[u8]) -> bool
    requires full { length bytes.now ≡ cells * byte_count dtype }
    requires small { cells ≤ 2 ^ 24 }
    ensures { IsTrue result ↔ EachIndex (words_in dtype cells bytes.now) (λ k.
        slice_index (words_in dtype cells bytes.now) k ≡ word) }
{
    let size = dtype.byte_count();
    for place in 0..cells {
        if take(dtype, false, &bytes[place * size..place * size + size]) != word {
            return false;
        }
    }
    true
}

/// Puts the words of a view as the items along a run.
pub(crate) fn put_items(dtype: Dtype, cells: usize, run: Run, words: &[u64], bytes: &mut [u8])
    requires full { length bytes.old ≡ cells * byte_count dtype }
    requires small { cells ≤ 2 ^ 24 }
    requires run { IsRunInside run (length words.now) cells }
    requires words { All (IsWord dtype) words.now }
    ensures { words_in dtype cells bytes.new ≡ pairs_put (pairs_of run) words.now (words_in dtype cells bytes.old) }
{
    match dtype {
        Dtype::I8 => put_run(Dtype::I8, cells, run, words, bytes),
        Dtype::U8 => put_run(Dtype::U8, cells, run, words, bytes),
        Dtype::I16 => put_run(Dtype::I16, cells, run, words, bytes),
        Dtype::U16 => put_run(Dtype::U16, cells, run, words, bytes),
        Dtype::I32 => put_run(Dtype::I32, cells, run, words, bytes),
        Dtype::U32 => put_run(Dtype::U32, cells, run, words, bytes),
        Dtype::I64 => put_run(Dtype::I64, cells, run, words, bytes),
        Dtype::U64 => put_run(Dtype::U64, cells, run, words, bytes),
    }
}

#[inline(always)]
fn put_run(dtype: Dtype, cells: usize, run: Run, words: &[u64], bytes: &mut [u8])
    requires full { length bytes.old ≡ cells * byte_count dtype }
    requires small { cells ≤ 2 ^ 24 }
    requires run { IsRunInside run (length words.now) cells }
    requires words { All (IsWord dtype) words.now }
    ensures { words_in dtype cells bytes.new ≡ pairs_put (pairs_of run) words.now (words_in dtype cells bytes.old) }
{
    if run.view_step == 1 && run.chunk_step == 1 {
        put_row(dtype, cells, run, words, bytes)
    } else if run.view_step == 0 && run.chunk_step == 1 {
        put_one(dtype, cells, run, words, bytes)
    } else {
        put_steps(dtype, cells, run, words, bytes)
    }
}

// One word along a run without gaps.
#[inline(always)]
fn put_one(dtype: Dtype, cells: usize, run: Run, words: &[u64], bytes: &mut [u8])
    requires full { length bytes.old ≡ cells * byte_count dtype }
    requires small { cells ≤ 2 ^ 24 }
    requires run { IsRunInside run (length words.now) cells }
    requires words { All (IsWord dtype) words.now }
    requires view_step { run.view_step ≡ 0 }
    requires chunk_step { run.chunk_step ≡ pos 1 }
    ensures { words_in dtype cells bytes.new ≡ pairs_put (pairs_of run) words.now (words_in dtype cells bytes.old) }
{
    if run.len == 0 {
        return;
    }
    let size = dtype.byte_count();
    let word = words[run.view as usize];
    for k in 0..run.len {
        let at = run.chunk as usize + k as usize;
        put(dtype, false, word, &mut bytes[at * size..at * size + size]);
    }
}

#[inline(always)]
fn put_row(dtype: Dtype, cells: usize, run: Run, words: &[u64], bytes: &mut [u8])
    requires full { length bytes.old ≡ cells * byte_count dtype }
    requires small { cells ≤ 2 ^ 24 }
    requires run { IsRunInside run (length words.now) cells }
    requires words { All (IsWord dtype) words.now }
    requires view_step { run.view_step ≡ 1 }
    requires chunk_step { run.chunk_step ≡ pos 1 }
    ensures { words_in dtype cells bytes.new ≡ pairs_put (pairs_of run) words.now (words_in dtype cells bytes.old) }
{
    let size = dtype.byte_count();
    for k in 0..run.len {
        let (view, at) = row_at(run, k);
        put(
            dtype,
            false,
            words[view],
            &mut bytes[at * size..at * size + size],
        );
    }
}

#[inline(always)]
fn put_steps(dtype: Dtype, cells: usize, run: Run, words: &[u64], bytes: &mut [u8])
    requires full { length bytes.old ≡ cells * byte_count dtype }
    requires small { cells ≤ 2 ^ 24 }
    requires run { IsRunInside run (length words.now) cells }
    requires words { All (IsWord dtype) words.now }
    ensures { words_in dtype cells bytes.new ≡ pairs_put (pairs_of run) words.now (words_in dtype cells bytes.old) }
{
    let size = dtype.byte_count();
    for k in 0..run.len {
        let (view, at) = pair_at(run, k);
        put(
            dtype,
            false,
            words[view],
            &mut bytes[at * size..at * size + size],
        );
    }
}

/// Puts the words of the items into a view along a run.
pub(crate) fn take_items(dtype: Dtype, cells: usize, run: Run, bytes: &[u8], out: &mut [u64])
    requires full { length bytes.now ≡ cells * byte_count dtype }
    requires small { cells ≤ 2 ^ 24 }
    requires run { IsRunInside run (length out.old) cells }
    ensures { out.new ≡ pairs_taken (pairs_of run) (words_in dtype cells bytes.now) out.old }
{
    match dtype {
        Dtype::I8 => take_run(Dtype::I8, cells, run, bytes, out),
        Dtype::U8 => take_run(Dtype::U8, cells, run, bytes, out),
        Dtype::I16 => take_run(Dtype::I16, cells, run, bytes, out),
        Dtype::U16 => take_run(Dtype::U16, cells, run, bytes, out),
        Dtype::I32 => take_run(Dtype::I32, cells, run, bytes, out),
        Dtype::U32 => take_run(Dtype::U32, cells, run, bytes, out),
        Dtype::I64 => take_run(Dtype::I64, cells, run, bytes, out),
        Dtype::U64 => take_run(Dtype::U64, cells, run, bytes, out),
    }
}

#[inline(always)]
fn take_run(dtype: Dtype, cells: usize, run: Run, bytes: &[u8], out: &mut [u64])
    requires full { length bytes.now ≡ cells * byte_count dtype }
    requires small { cells ≤ 2 ^ 24 }
    requires run { IsRunInside run (length out.old) cells }
    ensures { out.new ≡ pairs_taken (pairs_of run) (words_in dtype cells bytes.now) out.old }
{
    if run.view_step == 1 && run.chunk_step == 1 {
        take_row(dtype, cells, run, bytes, out)
    } else {
        take_steps(dtype, cells, run, bytes, out)
    }
}

#[inline(always)]
fn take_row(dtype: Dtype, cells: usize, run: Run, bytes: &[u8], out: &mut [u64])
    requires full { length bytes.now ≡ cells * byte_count dtype }
    requires small { cells ≤ 2 ^ 24 }
    requires run { IsRunInside run (length out.old) cells }
    requires view_step { run.view_step ≡ 1 }
    requires chunk_step { run.chunk_step ≡ pos 1 }
    ensures { out.new ≡ pairs_taken (pairs_of run) (words_in dtype cells bytes.now) out.old }
{
    let size = dtype.byte_count();
    for k in 0..run.len {
        let (view, at) = row_at(run, k);
        out[view] = take(dtype, false, &bytes[at * size..at * size + size]);
    }
}

#[inline(always)]
fn take_steps(dtype: Dtype, cells: usize, run: Run, bytes: &[u8], out: &mut [u64])
    requires full { length bytes.now ≡ cells * byte_count dtype }
    requires small { cells ≤ 2 ^ 24 }
    requires run { IsRunInside run (length out.old) cells }
    ensures { out.new ≡ pairs_taken (pairs_of run) (words_in dtype cells bytes.now) out.old }
{
    let size = dtype.byte_count();
    for k in 0..run.len {
        let (view, at) = pair_at(run, k);
        out[view] = take(dtype, false, &bytes[at * size..at * size + size]);
    }
}

/// Puts a staged word as the item wherever the mask is set.
pub(crate) fn lay_items(dtype: Dtype, cells: usize, mask: &[bool], staged: &[u64], bytes: &mut [u8])
    requires full { length bytes.old ≡ cells * byte_count dtype }
    requires small { cells ≤ 2 ^ 24 }
    requires mask { length mask.now ≡ cells }
    requires staged { length staged.now ≡ cells }
    requires words { (place : ℕ) → place < cells → slice_index_or mask.now place false ≡ true
        → IsWord dtype (slice_index staged.now place) }
    ensures { words_in dtype cells bytes.new ≡ words_where mask.now staged.now (words_in dtype cells bytes.old) }
{
    match dtype {
        Dtype::I8 => lay_each(Dtype::I8, cells, mask, staged, bytes),
        Dtype::U8 => lay_each(Dtype::U8, cells, mask, staged, bytes),
        Dtype::I16 => lay_each(Dtype::I16, cells, mask, staged, bytes),
        Dtype::U16 => lay_each(Dtype::U16, cells, mask, staged, bytes),
        Dtype::I32 => lay_each(Dtype::I32, cells, mask, staged, bytes),
        Dtype::U32 => lay_each(Dtype::U32, cells, mask, staged, bytes),
        Dtype::I64 => lay_each(Dtype::I64, cells, mask, staged, bytes),
        Dtype::U64 => lay_each(Dtype::U64, cells, mask, staged, bytes),
    }
}

#[inline(always)]
fn lay_each(dtype: Dtype, cells: usize, mask: &[bool], staged: &[u64], bytes: &mut [u8])
    requires full { length bytes.old ≡ cells * byte_count dtype }
    requires small { cells ≤ 2 ^ 24 }
    requires mask { length mask.now ≡ cells }
    requires staged { length staged.now ≡ cells }
    requires words { (place : ℕ) → place < cells → slice_index_or mask.now place false ≡ true
        → IsWord dtype (slice_index staged.now place) }
    ensures { words_in dtype cells bytes.new ≡ words_where mask.now staged.now (words_in dtype cells bytes.old) }
{
    let size = dtype.byte_count();
    for place in 0..cells {
        if mask[place] {
            put(
                dtype,
                false,
                staged[place],
                &mut bytes[place * size..place * size + size],
            );
        }
    }
}

/// The view's place and the chunk's place of pair `k`.
#[inline(always)]
pub(crate) fn pair_at(run: Run, k: u32) -> (usize, usize)
    requires in_view { view_place run k < 2 ^ 64 }
    requires from_first { pos 0 ≤ℤ chunk_number run k }
    requires to_last { chunk_number run k <ℤ pos (2 ^ 63) }
    ensures view { result.0 ≡ view_place run k }
    ensures chunk { result.1 ≡ chunk_place run k }
{
    let view = run.view as usize + run.view_step as usize * k as usize;
    let chunk = i64::from(run.chunk) + run.chunk_step * i64::from(k);
    (view, chunk as usize)
}

/// The same of a run without gaps.
#[inline(always)]
fn row_at(run: Run, k: u32) -> (usize, usize)
    requires view_step { run.view_step ≡ 1 }
    requires chunk_step { run.chunk_step ≡ pos 1 }
    ensures view { result.0 ≡ view_place run k }
    ensures chunk { result.1 ≡ chunk_place run k }
{
    (
        run.view as usize + k as usize,
        run.chunk as usize + k as usize,
    )
}
