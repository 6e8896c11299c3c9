ghost use Rattle.std.specs.Prelude.{◌≡◌, ◌≢◌, ◌≤◌, ◌^◌, ℤ, [], ◌∷◌, All, Some, Ok, Err, IfOk, OnOk, length, map, option_map};
ghost use Rattle.serde_json.specs.View.{view};
ghost use Rattle.cells.specs.Numbers.{IsWord};
ghost use Rattle.cells.specs.Places.{cell_count};
ghost use Rattle.json_forms.specs.Numbers.{whole_number};
ghost use Rattle.json_forms.specs.Lists.{list_items};
ghost use Rattle.script_lines.specs.NestedWords.{Path, onto, repeated, one_word, sized, nested_words, words_of};

use cells::{Dtype, List, WrittenWords, count_cells};
use json_forms::{list_items, whole_number};
use serde_json::Value;
use std::alloc::{AllocError, Global};
use thiserror::Error;

/// Why values give no words.
#[derive(Debug, Drop, Error)]
pub enum ValuesError {
    /// At this path of list places, the first in the order in which the values are written, there is no list of the size
    /// or no whole number in the range.
    #[error("the values don't fit the shape or the dtype")]
    Bad { path: List<u64> },
    #[error("out of memory")]
    Memory,
}

impl From<AllocError> for ValuesError {
    ghost use Rattle.script_lines.specs.declared.words.ValuesError.TheVariants as values;

    ghost from_gives = { λ _ e. e ≡ values.Memory };

    fn from(_: AllocError) -> Self {
        ValuesError::Memory
    }
}

/// The words, in C order, that values give to the cells of a shape: one whole number in the dtype's range for all cells,
/// or lists that are nested as the shape says, with such numbers in the innermost. One number takes no memory.
///
/// # Errors
/// `Bad` where the values are neither, and `Memory` where an allocation failed, of lists alone.
pub fn words_of_values(
    alloc: Global,
    dtype: Dtype,
    shape: &[u64],
    values: &Value,
) -> Result<WrittenWords, ValuesError>
    requires { cell_count shape.now ≤ 2 ^ 22 }
    ensures ok { IfOk result (λ words. words_of dtype shape.now (view values.now) ≡ Ok words) }
    ensures bad { (path : Path) → result ≡ Err (ValuesError.Bad path)
        → words_of dtype shape.now (view values.now) ≡ Err path }
    ensures full { IfOk result (λ words. length words ≡ cell_count shape.now) }
    ensures of_dtype { IfOk result (λ words. All (IsWord dtype) words) }
    ensures one { (number : ℤ) → whole_number (view values.now) ≡ Some number → result ≢ Err ValuesError.Memory }
{
    match whole_number(values) {
        Some(number) => repeated(alloc, dtype, cells_of(shape), number),
        None => match nested_words(alloc, dtype, shape, values) {
            Ok(words) => Ok(WrittenWords::each(words)),
            Err(e) => Err(e),
        },
    }
}

fn cells_of(shape: &[u64]) -> usize
    requires { cell_count shape.now ≤ 2 ^ 22 }
    ensures { result ≡ cell_count shape.now }
{
    let Some(count) = count_cells(shape, 1 << 22) else {
        unreachable!();
    };
    count as usize
}

fn repeated(
    alloc: Global,
    dtype: Dtype,
    count: usize,
    number: i128,
) -> Result<WrittenWords, ValuesError>
    ensures ok { IfOk result (λ words. repeated dtype count number ≡ Ok words) }
    ensures bad { (path : Path) → result ≡ Err (ValuesError.Bad path) → repeated dtype count number ≡ Err path }
    ensures told { result ≢ Err ValuesError.Memory }
{
    if dtype.holds(number) {
        Ok(WrittenWords::one(dtype.word(number), count))
    } else {
        Err(bad_here(alloc))
    }
}

/// The words, in C order, that lists give to the cells of a shape, which are nested as the shape says, with whole numbers in the dtype's range in the
/// innermost. Where the shape has no dimension, they are one such number.
///
/// # Errors
/// `Bad` where the values are no such lists, and `Memory` where an allocation failed.
pub fn nested_words(
    alloc: Global,
    dtype: Dtype,
    shape: &[u64],
    values: &Value,
) -> Result<Vec<u64>, ValuesError>
    requires { cell_count shape.now ≤ 2 ^ 22 }
    ensures ok { IfOk result (λ words. nested_words dtype shape.now (view values.now) ≡ Ok words.items) }
    ensures bad { (path : Path) → result ≡ Err (ValuesError.Bad path)
        → nested_words dtype shape.now (view values.now) ≡ Err path }
{
    let mut words = Vec::with_capacity(alloc, cells_of(shape))?;
    push_nested(alloc, dtype, shape, values, &mut words)?;
    Ok(words)
}

// Appends the words of nested lists.
fn push_nested(
    alloc: Global,
    dtype: Dtype,
    shape: &[u64],
    values: &Value,
    out: &mut Vec<u64>,
) -> Result<(), ValuesError>
    ensures ok { OnOk result (onto out.old.items (nested_words dtype shape.now (view values.now)) ≡ Ok out.new.items) }
    ensures bad { (path : Path) → result ≡ Err (ValuesError.Bad path)
        → nested_words dtype shape.now (view values.now) ≡ Err path }
{
    match shape {
        [] => push_word(alloc, dtype, values, out),
        [size, rest @ ..] => {
            let Some(items) = list_of_size(values, *size) else {
                return Err(bad_here(alloc));
            };
            for (k, item) in items.iter().enumerate() {
                match push_nested(alloc, dtype, rest, item, out) {
                    Ok(()) => {}
                    Err(error) => return Err(below(error, k as u64)),
                }
            }
            Ok(())
        }
    }
}

fn push_word(
    alloc: Global,
    dtype: Dtype,
    value: &Value,
    out: &mut Vec<u64>,
) -> Result<(), ValuesError>
    ensures ok { OnOk result (onto out.old.items (one_word dtype (whole_number (view value.now))) ≡ Ok out.new.items) }
    ensures bad { (path : Path) → result ≡ Err (ValuesError.Bad path)
        → one_word dtype (whole_number (view value.now)) ≡ Err path }
{
    let Some(number) = whole_number(value) else {
        return Err(bad_here(alloc));
    };
    if !dtype.holds(number) {
        return Err(bad_here(alloc));
    }
    match out.push(dtype.word(number)) {
        Ok(()) => Ok(()),
        Err(_) => Err(ValuesError::Memory),
    }
}

fn list_of_size(value: &Value, size: u64) -> Option<&[Value]>
    ensures { option_map (λ items. map view items.now) result ≡ sized size (list_items (view value.now)) }
{
    let items = list_items(value)?;
    if items.len() as u64 == size {
        Some(items)
    } else {
        None
    }
}

fn bad_here(alloc: Global) -> ValuesError
    ensures { result ≡ ValuesError.Bad [] }
{
    ValuesError::Bad {
        path: List::wrap(Vec::new(alloc)),
    }
}

fn below(error: ValuesError, place: u64) -> ValuesError
    ensures { (path : Path) → result ≡ ValuesError.Bad path
        → (inner : Path) × (error ≡ ValuesError.Bad inner) × (path ≡ place ∷ inner) }
{
    match error {
        ValuesError::Bad { path } => {
            let mut places = path.into_inner();
            match places.insert(0, place) {
                Ok(()) => ValuesError::Bad {
                    path: List::wrap(places),
                },
                Err(_) => ValuesError::Memory,
            }
        }
        ValuesError::Memory => ValuesError::Memory,
    }
}
