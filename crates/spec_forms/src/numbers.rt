// Nested lists of numbers.
ghost use Rattle.std.specs.Prelude.{◌≡◌, ◌≤◌, ◌^◌, ◌++◌, [], Some, None, All, IfOk, IfSome, length, nat_le, option_map, if◌then◌else◌};
ghost use Rattle.serde_json.specs.View.{view};
ghost use Rattle.cells.specs.Numbers.{IsWord};
ghost use Rattle.cells.specs.Places.{cell_count};
ghost use Rattle.want_forms.specs.Made.{default_chunks};
ghost use Rattle.spec_forms.specs.Numbers.{nested_sizes, sizes_in, nested_words, numbers_in};

use cells::{Dtype, MOST_CELLS, Sizes, Words, count_cells};
use json_forms::{list_items, whole_number};
use serde_json::Value;
use std::alloc::{AllocError, Global};
use want_forms::{default_chunks, word_asked};

/// Nested lists of one shape: their sizes, and a word for each number, in C order.
#[derive(Debug, Drop)]
pub(crate) struct Nested {
    pub sizes: Sizes,
    pub words: Words,
}

const MOST_SIZES: usize = 32;

/// The numbers that a value has, in the dtype's range where one is named; `None` where they are no nested lists of one shape.
#[tactic(auto, unfolding(crate::specs::Numbers::numbers_in))]
pub(crate) fn numbers_in(
    alloc: Global,
    dtype: Option<Dtype>,
    value: &Value,
) -> Result<Option<Nested>, AllocError>
    ensures { IfOk result (λ o. o ≡ numbers_in dtype (view value.now)) }
{
    let Some(sizes) = sizes_in(alloc, value)? else {
        return Ok(None);
    };
    let Some(count) = few_cells(alloc, sizes.as_slice())? else {
        return Ok(None);
    };
    let Some(words) = words_in(alloc, count, dtype, sizes.as_slice(), value)? else {
        return Ok(None);
    };
    Ok(Some(Nested {
        sizes: Sizes::wrap(sizes),
        words,
    }))
}

#[tactic(auto, unfolding(crate::specs::Numbers::sizes_in))]
fn sizes_in(alloc: Global, value: &Value) -> Result<Option<Vec<u64>>, AllocError>
    ensures { IfOk result (λ o. option_map (λ v. v.items) o ≡ sizes_in (view value.now)) }
{
    let mut sizes = Vec::new(alloc);
    if put_sizes(MOST_SIZES, value, &mut sizes)? {
        Ok(Some(sizes))
    } else {
        Ok(None)
    }
}

// How many cells there are where each size 0 counts as 1, if they are at most 2^22.
fn few_cells(alloc: Global, sizes: &[u64]) -> Result<Option<u64>, AllocError>
    ensures { IfOk result (λ o. (if nat_le (cell_count (default_chunks sizes.now)) 4194304
        then Some (cell_count (default_chunks sizes.now)) else None) ≡ o) }
{
    let ones = default_chunks(alloc, sizes)?;
    Ok(count_cells(ones.as_slice(), MOST_CELLS))
}

// The words of nested lists of these sizes, of which there are about so many.
fn words_in(
    alloc: Global,
    count: u64,
    dtype: Option<Dtype>,
    sizes: &[u64],
    value: &Value,
) -> Result<Option<Words>, AllocError>
    ensures { IfOk result (λ o. o ≡ nested_words dtype sizes.now (view value.now)) }
{
    let mut words = Vec::with_capacity(alloc, count as usize)?;
    if put_words(dtype, sizes, value, &mut words)? {
        Ok(Some(Words::wrap(words)))
    } else {
        Ok(None)
    }
}

// Appends the sizes of nested lists, at most so many; false where there are more.
fn put_sizes(room: usize, value: &Value, out: &mut Vec<u64>) -> Result<bool, AllocError>
    ensures { IfOk result (λ good. (if good then Some out.new.items else None)
        ≡ option_map (λ sizes. out.old.items ++ sizes) (nested_sizes room (view value.now))) }
{
    let Some(items) = list_items(value) else {
        return Ok(true);
    };
    if room == 0 {
        return Ok(false);
    }
    out.push(items.len() as u64)?;
    match items {
        [] => Ok(true),
        [first, ..] => put_sizes(room - 1, first, out),
    }
}

// Appends the words of nested lists of these sizes; false where there are no such lists.
fn put_words(
    dtype: Option<Dtype>,
    sizes: &[u64],
    value: &Value,
    out: &mut Vec<u64>,
) -> Result<bool, AllocError>
    ensures { IfOk result (λ good. (if good then Some out.new.items else None)
        ≡ option_map (λ words. out.old.items ++ words) (nested_words dtype sizes.now (view value.now))) }
{
    let [size, behind @ ..] = sizes else {
        return put_word(dtype, value, out);
    };
    let Some(items) = list_items(value) else {
        return Ok(false);
    };
    if items.len() as u64 != *size {
        return Ok(false);
    }
    for item in items {
        if !put_words(dtype, behind, item, out)? {
            return Ok(false);
        }
    }
    Ok(true)
}

fn put_word(dtype: Option<Dtype>, value: &Value, out: &mut Vec<u64>) -> Result<bool, AllocError>
    ensures { IfOk result (λ good. (if good then Some out.new.items else None)
        ≡ option_map (λ words. out.old.items ++ words) (nested_words dtype [] (view value.now))) }
{
    match word_asked(dtype, whole_number(value)) {
        Ok(word) => {
            out.push(word)?;
            Ok(true)
        }
        Err(_) => Ok(false),
    }
}
