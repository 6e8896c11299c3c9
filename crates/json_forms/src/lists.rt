ghost use Rattle.std.specs.Prelude.{◌≡◌, IfOk, option_map, map};
ghost use Rattle.serde_json.specs.View.{view};
ghost use Rattle.json_forms.specs.Numbers.{natural, integer};
ghost use Rattle.json_forms.specs.Lists.{list_items, list_of, whole_list, u64_list, i64_list};

use crate::numbers::whole_number;
use serde_json::Value;
use std::alloc::{AllocError, Global};

/// The items, where the value is a list.
pub fn list_items(value: &Value) -> Option<&[Value]>
    ensures { option_map (λ items. map view items.now) result ≡ list_items (view value.now) }
{
    match value.as_array() {
        Some(items) => Some(items.as_slice()),
        None => None,
    }
}

/// The integers of a list of whole numbers, and `None` where the value is no such list.
///
/// # Errors
/// An allocation failed.
pub fn whole_list(alloc: Global, value: &Value) -> Result<Option<Vec<i128>>, AllocError>
    ensures { IfOk result (λ o. option_map (λ v. v.items) o ≡ whole_list (view value.now)) }
{
    let Some(items) = list_items(value) else {
        return Ok(None);
    };
    let mut numbers = Vec::with_capacity(alloc, items.len())?;
    for item in items {
        let Some(number) = whole_number(item) else {
            return Ok(None);
        };
        numbers.push(number)?;
    }
    Ok(Some(numbers))
}

/// The numbers of a list of whole numbers from 0 to 2^64 - 1, and `None` where the value is no such list.
///
/// # Errors
/// An allocation failed.
pub fn u64_list(alloc: Global, value: &Value) -> Result<Option<Vec<u64>>, AllocError>
    ensures { IfOk result (λ o. option_map (λ v. v.items) o ≡ u64_list (view value.now)) }
{
    let Some(items) = list_items(value) else {
        return Ok(None);
    };
    let mut numbers = Vec::with_capacity(alloc, items.len())?;
    for item in items {
        let Some(number) = item.as_u64() else {
            return Ok(None);
        };
        numbers.push(number)?;
    }
    Ok(Some(numbers))
}

/// The numbers of a list of whole numbers from -2^63 to 2^63 - 1, and `None` where the value is no such list.
///
/// # Errors
/// An allocation failed.
pub fn i64_list(alloc: Global, value: &Value) -> Result<Option<Vec<i64>>, AllocError>
    ensures { IfOk result (λ o. option_map (λ v. v.items) o ≡ i64_list (view value.now)) }
{
    let Some(items) = list_items(value) else {
        return Ok(None);
    };
    let mut numbers = Vec::with_capacity(alloc, items.len())?;
    for item in items {
        let Some(number) = item.as_i64() else {
            return Ok(None);
        };
        numbers.push(number)?;
    }
    Ok(Some(numbers))
}

/// A list of numbers, none of them negative.
///
/// # Errors
/// An allocation failed.
pub fn list_from_u64s(alloc: Global, numbers: &[u64]) -> Result<Value, AllocError>
    ensures { IfOk result (λ v. view v ≡ list_of (map natural numbers.now)) }
{
    let mut items = Vec::with_capacity(alloc, numbers.len())?;
    for number in numbers {
        items.push(Value::from(*number))?;
    }
    Ok(Value::Array(items))
}

/// A list of numbers, which may be negative.
///
/// # Errors
/// An allocation failed.
pub fn list_from_i64s(alloc: Global, numbers: &[i64]) -> Result<Value, AllocError>
    ensures { IfOk result (λ v. view v ≡ list_of (map integer numbers.now)) }
{
    let mut items = Vec::with_capacity(alloc, numbers.len())?;
    for integer in numbers {
        items.push(Value::from(*integer))?;
    }
    Ok(Value::Array(items))
}
