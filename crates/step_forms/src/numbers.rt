// Whole numbers in steps.
ghost use Rattle.std.specs.Prelude.{◌≡◌, IfOk, option_map};
ghost use Rattle.serde_json.specs.View.{view};
ghost use Rattle.serde_json.specs.Find.{as_str};
ghost use Rattle.step_forms.specs.Forms.{index_of, or_null, list_by};
ghost use Rattle.step_forms.specs.Acts.{per_dim_of, numbers_of, texts_of};

use crate::act::{Numbers, PerDim};
use index_intervals::is_index;
use index_transform::{Index, List, Name};
use json_forms::{list_items, whole_number};
use serde_json::Value;
use std::alloc::{AllocError, Global};

/// The finite index that a value is.
pub(crate) fn index_of(value: &Value) -> Option<i64>
    ensures { result ≡ index_of (view value.now) }
{
    let number = whole_number(value)?;
    if is_index(number) {
        Some(number as i64)
    } else {
        None
    }
}

/// The same, or null as nothing.
pub(crate) fn index_or_null(value: &Value) -> Option<Option<i64>>
    ensures { result ≡ or_null index_of (view value.now) }
{
    if value.is_null() {
        return Some(None);
    }
    match index_of(value) {
        Some(number) => Some(Some(number)),
        None => None,
    }
}

/// The indices of a list.
pub(crate) fn indices_of(alloc: Global, value: &Value) -> Result<Option<Vec<i64>>, AllocError>
    ensures { IfOk result (λ o. option_map (λ v. v.items) o ≡ list_by index_of (view value.now)) }
{
    let Some(items) = list_items(value) else {
        return Ok(None);
    };
    let mut numbers = Vec::with_capacity(alloc, items.len())?;
    for item in items {
        let Some(number) = index_of(item) else {
            return Ok(None);
        };
        numbers.push(number)?;
    }
    Ok(Some(numbers))
}

/// The indices and nulls of a list.
fn indices_or_nulls(alloc: Global, value: &Value) -> Result<Option<Vec<Option<i64>>>, AllocError>
    ensures { IfOk result (λ o. option_map (λ v. v.items) o ≡ list_by (or_null index_of) (view value.now)) }
{
    let Some(items) = list_items(value) else {
        return Ok(None);
    };
    let mut numbers = Vec::with_capacity(alloc, items.len())?;
    for item in items {
        let Some(number) = index_or_null(item) else {
            return Ok(None);
        };
        numbers.push(number)?;
    }
    Ok(Some(numbers))
}

/// A number for all dimensions, or a list of numbers and nulls.
pub(crate) fn per_dim_of(alloc: Global, value: &Value) -> Result<Option<PerDim>, AllocError>
    ensures { IfOk result (λ o. o ≡ per_dim_of (view value.now)) }
{
    if let Some(number) = index_of(value) {
        return Ok(Some(PerDim::All { number }));
    }
    match indices_or_nulls(alloc, value)? {
        Some(numbers) => Ok(Some(PerDim::Each {
            numbers: List::wrap(numbers),
        })),
        None => Ok(None),
    }
}

/// A number for all dimensions, or a list of numbers.
pub(crate) fn numbers_of(alloc: Global, value: &Value) -> Result<Option<Numbers>, AllocError>
    ensures { IfOk result (λ o. o ≡ numbers_of (view value.now)) }
{
    if let Some(number) = index_of(value) {
        return Ok(Some(Numbers::All { number }));
    }
    match indices_of(alloc, value)? {
        Some(numbers) => Ok(Some(Numbers::Each {
            numbers: Index::wrap(numbers),
        })),
        None => Ok(None),
    }
}

/// The lists of indices of a list.
pub(crate) fn arrays_of(alloc: Global, value: &Value) -> Result<Option<List<Index>>, AllocError>
    ensures { IfOk result (λ o. o ≡ list_by (list_by index_of) (view value.now)) }
{
    let Some(items) = list_items(value) else {
        return Ok(None);
    };
    let mut arrays = Vec::with_capacity(alloc, items.len())?;
    for item in items {
        let Some(numbers) = indices_of(alloc, item)? else {
            return Ok(None);
        };
        arrays.push(Index::wrap(numbers))?;
    }
    Ok(Some(List::wrap(arrays)))
}

/// A text as a name of its own.
pub(crate) fn name_of(alloc: Global, text: &str) -> Result<Name, AllocError>
    ensures { IfOk result (λ n. n ≡ text.now) }
{
    Ok(Name::wrap(String::from_str(alloc, text)?))
}

/// The texts of a list, or one text alone.
pub(crate) fn texts_of(alloc: Global, value: &Value) -> Result<Option<List<Name>>, AllocError>
    ensures { IfOk result (λ o. o ≡ texts_of (view value.now)) }
{
    if let Some(text) = value.as_str() {
        let mut texts = Vec::with_capacity(alloc, 1)?;
        texts.push(name_of(alloc, text)?)?;
        return Ok(Some(List::wrap(texts)));
    }
    texts_of_list(alloc, value)
}

fn texts_of_list(alloc: Global, value: &Value) -> Result<Option<List<Name>>, AllocError>
    ensures { IfOk result (λ o. o ≡ list_by as_str (view value.now)) }
{
    let Some(items) = list_items(value) else {
        return Ok(None);
    };
    let mut texts = Vec::with_capacity(alloc, items.len())?;
    for item in items {
        let Some(text) = item.as_str() else {
            return Ok(None);
        };
        texts.push(name_of(alloc, text)?)?;
    }
    Ok(Some(List::wrap(texts)))
}
