// Intervals by the member that gives the upper bounds.
ghost use Rattle.std.specs.Prelude.{◌≡◌, ◌≢◌, ◌≤◌, ◌-◌, ◌^◌, Some, Ok, Err, IfOk, IfErr, IfSome, length, map, option_map, option_and_then};
ghost use Rattle.serde_json.specs.View.{view};
ghost use Rattle.transform_json.specs.Bounds.{alone, interval_of};
ghost use Rattle.transform_json.specs.Uppers.{number_below, with_number_of, size_number, end_of, upper_of, upper_name, dim_to, dims_to, dims_at, open_dims, dims_of};

use crate::bounds::{ReadBound, bound, bound_of, interval_of, open_bound};
use crate::error::{JsonError, bad_member};
use crate::input::{has, items_of_len};
use index_intervals::{Interval, is_index};
use json_forms::list_items;
use serde_json::Value;
use std::alloc::{AllocError, Global};

/// The member that gives the upper bounds.
#[derive(Clone, Copy)]
enum Upper {
    Exclusive,
    Inclusive,
    Shape,
}

// The intervals by lower bounds and the one member that gives upper ones.
pub(crate) fn dims_of(
    alloc: Global,
    value: &Value,
    lowers: &[ReadBound],
) -> Result<Vec<Interval>, JsonError>
    ensures value { IfOk result (λ v. dims_of (view value.now) lowers.now ≡ Ok v.items) }
    ensures causes { IfErr result (λ e. e ≢ JsonError.Memory → dims_of (view value.now) lowers.now ≡ Err e) }
{
    if has(value, "input_exclusive_max") {
        if has(value, "input_inclusive_max") {
            return Err(bad_member(alloc, "input_inclusive_max"));
        }
        if has(value, "input_shape") {
            return Err(bad_member(alloc, "input_shape"));
        }
        return dims_at(alloc, Upper::Exclusive, value, lowers);
    }
    if has(value, "input_inclusive_max") {
        if has(value, "input_shape") {
            return Err(bad_member(alloc, "input_shape"));
        }
        return dims_at(alloc, Upper::Inclusive, value, lowers);
    }
    if has(value, "input_shape") {
        return dims_at(alloc, Upper::Shape, value, lowers);
    }
    match open_dims(alloc, lowers)? {
        Some(dims) => Ok(dims),
        None => Err(bad_member(alloc, "input_inclusive_min")),
    }
}

fn dims_at(
    alloc: Global,
    upper: Upper,
    value: &Value,
    lowers: &[ReadBound],
) -> Result<Vec<Interval>, JsonError>
    ensures value { IfOk result (λ v. dims_at upper (view value.now) lowers.now ≡ Ok v.items) }
    ensures causes { IfErr result (λ e. e ≢ JsonError.Memory → dims_at upper (view value.now) lowers.now ≡ Err e) }
{
    let Some(items) = items_of_len(value, upper_name(upper), lowers.len()) else {
        return Err(bad_member(alloc, upper_name(upper)));
    };
    match dims_to(alloc, upper, lowers, items)? {
        Some(dims) => Ok(dims),
        None => Err(bad_member(alloc, upper_name(upper))),
    }
}

fn upper_name(upper: Upper) -> &'static str
    ensures { result.now ≡ upper_name upper }
{
    match upper {
        Upper::Exclusive => "input_exclusive_max",
        Upper::Inclusive => "input_inclusive_max",
        Upper::Shape => "input_shape",
    }
}

fn dims_to(
    alloc: Global,
    upper: Upper,
    lowers: &[ReadBound],
    items: &[Value],
) -> Result<Option<Vec<Interval>>, AllocError>
    requires { length items.now ≡ length lowers.now }
    ensures { IfOk result (λ o. option_map (λ v. v.items) o ≡ dims_to upper lowers.now (map view items.now)) }
{
    let mut dims = Vec::with_capacity(alloc, lowers.len())?;
    for k in 0..lowers.len() {
        let Some(dim) = dim_to(upper, lowers[k], &items[k]) else {
            return Ok(None);
        };
        dims.push(dim)?;
    }
    Ok(Some(dims))
}

fn dim_to(upper: Upper, lower: ReadBound, item: &Value) -> Option<Interval>
    ensures { result ≡ dim_to upper (lower, view item.now) }
{
    interval_of(lower, upper_of(upper, lower, item)?)
}

fn open_dims(alloc: Global, lowers: &[ReadBound]) -> Result<Option<Vec<Interval>>, AllocError>
    ensures { IfOk result (λ o. option_map (λ v. v.items) o ≡ open_dims lowers.now) }
{
    let mut dims = Vec::with_capacity(alloc, lowers.len())?;
    for lower in lowers {
        let Some(dim) = interval_of(*lower, open_bound()) else {
            return Ok(None);
        };
        dims.push(dim)?;
    }
    Ok(Some(dims))
}

fn upper_of(upper: Upper, lower: ReadBound, item: &Value) -> Option<ReadBound>
    ensures { result ≡ upper_of upper lower (view item.now) }
{
    match upper {
        Upper::Exclusive => below(bound_of(item, "+inf")?),
        Upper::Inclusive => bound_of(item, "+inf"),
        Upper::Shape => by_size(lower.number, item),
    }
}

fn below(bound: ReadBound) -> Option<ReadBound>
    ensures { result ≡ with_number_of number_below bound }
{
    let Some(number) = bound.number else {
        return Some(bound);
    };
    let number = number.checked_sub(1)?;
    if is_index(number) {
        Some(ReadBound {
            number: Some(number),
            implicit: bound.implicit,
        })
    } else {
        None
    }
}

fn by_size(lower: Option<i128>, item: &Value) -> Option<ReadBound>
    ensures { result ≡ option_and_then (λ p.
        option_map (λ hi. record { number = Some hi; implicit = p.1 }) (end_of lower p.0))
        (alone size_number (view item.now)) }
{
    match list_items(item) {
        None => bound(Some(end_of(lower, size_number(item)?)?), false),
        Some([only]) => bound(Some(end_of(lower, size_number(only)?)?), true),
        Some(_) => None,
    }
}

fn size_number(value: &Value) -> Option<u64>
    ensures value { result ≡ size_number (view value.now) }
    ensures small { IfSome result (λ n. n ≤ 2 ^ 62 - 2) }
{
    let size = value.as_u64()?;
    if size <= (1 << 62) - 2 {
        Some(size)
    } else {
        None
    }
}

fn end_of(lower: Option<i128>, size: u64) -> Option<i128>
    requires { size ≤ 2 ^ 62 - 2 }
    ensures { result ≡ end_of lower size }
{
    let lo = lower?;
    if is_index(lo) {
        Some(lo + i128::from(size) - 1)
    } else {
        None
    }
}
