// The numbers of a shape, in nested lists.
ghost use Rattle.std.specs.Prelude.{◌≡◌, ◌++◌, OnOk, length, min, slice_index};
ghost use Rattle.cells.specs.Places.{cell_count};
ghost use Rattle.answer_text.specs.Pieces.{list_text};
ghost use Rattle.answer_text.specs.Nested.{word_text, values_text};

use crate::pieces::{put, put_comma, put_integer, put_number};
use cells::{Dtype, count_cells};
use std::alloc::AllocError;

/// Puts the numbers that words in C order stand for, nested as the shape says.
///
/// # Errors
/// An allocation failed.
pub(crate) fn put_values(
    out: &mut Vec<u8>,
    dtype: Dtype,
    shape: &[u64],
    words: &[u64],
) -> Result<(), AllocError>
    ensures { OnOk result (out.new.items ≡ out.old.items ++ values_text dtype shape.now words.now) }
{
    match shape {
        [] => put_word(out, dtype, first(words)),
        [size, shape @ ..] => {
            if shape.len() == 0 {
                return put_words(out, dtype, words);
            }
            let row_len = row_len(shape, words);
            let count = *size;
            let mut rest = words;
            put(out, "[")?;
            for done in 0..count {
                let (row, behind) = rest.split_at(row_len.min(rest.len()));
                put_comma(out, 0 < done)?;
                put_values(out, dtype, shape, row)?;
                rest = behind;
            }
            put(out, "]")
        }
    }
}

// The number of cells of a row, or of words where there are fewer.
fn row_len(shape: &[u64], words: &[u64]) -> usize
    ensures { result ≡ min (cell_count shape.now) (length words.now) }
{
    match count_cells(shape, words.len() as u64) {
        Some(count) => count as usize,
        None => words.len(),
    }
}

fn first(words: &[u64]) -> u64
    ensures { result ≡ slice_index words.now 0 }
{
    match words {
        [word, ..] => *word,
        [] => 0,
    }
}

// A row of numbers.
fn put_words(out: &mut Vec<u8>, dtype: Dtype, words: &[u64]) -> Result<(), AllocError>
    ensures { OnOk result (out.new.items ≡ out.old.items ++ list_text (word_text dtype) words.now) }
{
    put(out, "[")?;
    for k in 0..words.len() {
        put_comma(out, 0 < k)?;
        put_word(out, dtype, words[k])?;
    }
    put(out, "]")
}

#[tactic(auto, unfolding(crate::specs::Nested::word_text))]
fn put_word(out: &mut Vec<u8>, dtype: Dtype, word: u64) -> Result<(), AllocError>
    ensures { OnOk result (out.new.items ≡ out.old.items ++ word_text dtype word) }
{
    if dtype.is_signed() {
        put_integer(out, word.cast_signed())
    } else {
        put_number(out, word)
    }
}
