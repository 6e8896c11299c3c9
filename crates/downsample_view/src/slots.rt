// Words gathered at the places to which they come.
ghost use Rattle.std.specs.Prelude.{◌≡◌, IsTrue, IfOk, OnOk, length, map, int_lt, Option, Some, None, slice_index_or, slice_set, unwrap_or};
ghost use Rattle.std.specs.List.{list_all, range_with_len};
ghost use Rattle.cells.specs.Numbers.{number_of, is_signed};
ghost use Rattle.downsample_view.specs.Downsampled.{kept_of, kept_word};
ghost use Rattle.downsample_view.specs.Places.{is_below, words_to, kept_slot, kept_with, put_at, no_slot};

use crate::method::Method;
use cells::Dtype;
use std::alloc::{AllocError, Global};

// What is kept of the words that come to each of so many places.
pub(crate) fn kept_words(
    alloc: Global,
    places: &[Option<usize>],
    count: usize,
    words: &[u64],
    dtype: Dtype,
    method: Method,
) -> Result<Vec<u64>, AllocError>
    requires same { length places.now ≡ length words.now }
    requires below { IsTrue (list_all (is_below count) places.now) }
    ensures { IfOk result (λ all. all.items ≡ map (λ q.
        kept_word method dtype (words_to q places.now words.now)) (range_with_len 0 count)) }
{
    let slots = filled_slots(alloc, places, count, words, dtype, method)?;
    shown(alloc, &slots)
}

fn shown(alloc: Global, slots: &[Option<u64>]) -> Result<Vec<u64>, AllocError>
    ensures { IfOk result (λ all. all.items ≡ map (λ slot. unwrap_or slot 0) slots.now) }
{
    let mut all = Vec::with_capacity(alloc, slots.len())?;
    for slot in slots {
        all.push(slot.unwrap_or(0))?;
    }
    Ok(all)
}

fn filled_slots(
    alloc: Global,
    places: &[Option<usize>],
    count: usize,
    words: &[u64],
    dtype: Dtype,
    method: Method,
) -> Result<Vec<Option<u64>>, AllocError>
    requires same { length places.now ≡ length words.now }
    requires below { IsTrue (list_all (is_below count) places.now) }
    ensures { IfOk result (λ slots. slots.items ≡ map (λ q.
        kept_slot method dtype (words_to q places.now words.now)) (range_with_len 0 count)) }
{
    let mut slots = no_slots(alloc, count)?;
    fill(slots.as_mut_slice(), places, words, dtype, method);
    Ok(slots)
}

fn no_slots(alloc: Global, count: usize) -> Result<Vec<Option<u64>>, AllocError>
    ensures { IfOk result (λ slots. slots.items ≡ map no_slot (range_with_len 0 count)) }
{
    let mut slots = Vec::with_capacity(alloc, count)?;
    for _k in 0..count {
        slots.push(None)?;
    }
    Ok(slots)
}

fn fill(
    slots: &mut [Option<u64>],
    places: &[Option<usize>],
    words: &[u64],
    dtype: Dtype,
    method: Method,
)
    requires empty { slots.old ≡ map no_slot (range_with_len 0 (length slots.old)) }
    requires same { length places.now ≡ length words.now }
    requires below { IsTrue (list_all (is_below (length slots.old)) places.now) }
    ensures { slots.new ≡ map (λ q. kept_slot method dtype (words_to q places.now words.now))
        (range_with_len 0 (length slots.old)) }
{
    for k in 0..places.len() {
        put(slots, places[k], words[k], dtype, method);
    }
}

// Puts a word to its place.
fn put(slots: &mut [Option<u64>], place: Option<usize>, word: u64, dtype: Dtype, method: Method)
    requires { IsTrue (is_below (length slots.old) place) }
    ensures { slots.new ≡ put_at method dtype slots.old place word }
{
    if let Some(q) = place {
        slots[q] = Some(kept_with(method, dtype, slots[q], word));
    }
}

fn kept_with(method: Method, dtype: Dtype, slot: Option<u64>, word: u64) -> u64
    ensures { result ≡ kept_with method dtype slot word }
{
    match slot {
        Some(old) => kept_of(method, dtype, old, word),
        None => word,
    }
}

// Of two words the one that is kept.
fn kept_of(method: Method, dtype: Dtype, a: u64, b: u64) -> u64
    ensures { result ≡ kept_of method dtype a b }
{
    let changes = match method {
        Method::Stride => false,
        Method::Min => is_less(dtype, b, a),
        Method::Max => is_less(dtype, a, b),
    };
    if changes { b } else { a }
}

// Whether the number of a word is less than that of another.
fn is_less(dtype: Dtype, a: u64, b: u64) -> bool
    ensures { result ≡ int_lt (number_of dtype a) (number_of dtype b) }
{
    if is_signed(dtype) {
        a.cast_signed() < b.cast_signed()
    } else {
        a < b
    }
}

fn is_signed(dtype: Dtype) -> bool
    ensures { result ≡ is_signed dtype }
{
    match dtype {
        Dtype::I8 | Dtype::I16 | Dtype::I32 | Dtype::I64 => true,
        Dtype::U8 | Dtype::U16 | Dtype::U32 | Dtype::U64 => false,
    }
}
