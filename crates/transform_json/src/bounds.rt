// Bounds and intervals, from items of lists.
ghost use Rattle.std.specs.Prelude.{◌≡◌, ◌≢◌, Some, Ok, Err, IfOk, IfErr, option_map, replicate};
ghost use Rattle.serde_json.specs.View.{view};
ghost use Rattle.transform_json.specs.Bounds.{plain_bound, bound_of, open_bound, usual_lower, given_lowers, lowers_of, index_or, interval_of};

use crate::error::{JsonError, bad_member};
use crate::input::{has, is_text, items_of_len};
use index_intervals::{INFINITY, Interval, is_index};
use json_forms::{list_items, whole_number};
use serde_json::Value;
use std::alloc::{AllocError, Global};

/// A bound as it is read: its number, where it isn't an infinity, and whether it stands in a list of its own.
#[derive(Clone, Copy)]
pub(crate) struct ReadBound {
    pub(crate) number: Option<i128>,
    pub(crate) implicit: bool,
}

// The lower bounds; where none are given they are 0 for a shape, else open.
pub(crate) fn lowers_of(
    alloc: Global,
    value: &Value,
    rank: usize,
) -> Result<Vec<ReadBound>, JsonError>
    ensures value { IfOk result (λ v. lowers_of (view value.now) rank ≡ Ok v.items) }
    ensures causes { IfErr result (λ e. e ≢ JsonError.Memory → lowers_of (view value.now) rank ≡ Err e) }
{
    if !has(value, "input_inclusive_min") {
        return Ok(usual_lowers(alloc, has(value, "input_shape"), rank)?);
    }
    match given_lowers(alloc, value, rank)? {
        Some(lowers) => Ok(lowers),
        None => Err(bad_member(alloc, "input_inclusive_min")),
    }
}

fn usual_lowers(alloc: Global, shaped: bool, rank: usize) -> Result<Vec<ReadBound>, AllocError>
    ensures { IfOk result (λ v. v.items ≡ replicate rank (usual_lower shaped)) }
{
    let mut lowers = Vec::with_capacity(alloc, rank)?;
    for _place in 0..rank {
        lowers.push(usual_lower(shaped))?;
    }
    Ok(lowers)
}

fn usual_lower(shaped: bool) -> ReadBound
    ensures { result ≡ usual_lower shaped }
{
    if shaped {
        ReadBound {
            number: Some(0),
            implicit: false,
        }
    } else {
        open_bound()
    }
}

/// The bound where none is given.
pub(crate) fn open_bound() -> ReadBound
    ensures { result ≡ open_bound }
{
    ReadBound {
        number: None,
        implicit: true,
    }
}

fn given_lowers(
    alloc: Global,
    value: &Value,
    rank: usize,
) -> Result<Option<Vec<ReadBound>>, AllocError>
    ensures { IfOk result (λ o. option_map (λ v. v.items) o ≡ given_lowers (view value.now) rank) }
{
    let Some(items) = items_of_len(value, "input_inclusive_min", rank) else {
        return Ok(None);
    };
    let mut lowers = Vec::with_capacity(alloc, items.len())?;
    for item in items {
        let Some(lower) = bound_of(item, "-inf") else {
            return Ok(None);
        };
        lowers.push(lower)?;
    }
    Ok(Some(lowers))
}

pub(crate) fn bound_of(value: &Value, infinity: &str) -> Option<ReadBound>
    ensures { result ≡ bound_of infinity.now (view value.now) }
{
    match list_items(value) {
        None => bound(plain_bound(value, infinity)?, false),
        Some([item]) => bound(plain_bound(item, infinity)?, true),
        Some(_) => None,
    }
}

fn plain_bound(value: &Value, infinity: &str) -> Option<Option<i128>>
    ensures { result ≡ plain_bound infinity.now (view value.now) }
{
    if is_text(value, infinity) {
        return Some(None);
    }
    match whole_number(value) {
        Some(number) => Some(Some(number)),
        None => None,
    }
}

pub(crate) fn bound(number: Option<i128>, implicit: bool) -> Option<ReadBound>
    ensures { result ≡ Some (record { number = number; implicit = implicit }) }
{
    Some(ReadBound { number, implicit })
}

// The interval of two bounds.
pub(crate) fn interval_of(lower: ReadBound, upper: ReadBound) -> Option<Interval>
    ensures { result ≡ interval_of lower upper }
{
    let lo = index_or(lower.number, -INFINITY)?;
    let hi = index_or(upper.number, INFINITY)?;
    match Interval::new(lo, hi, lower.implicit, upper.implicit) {
        Ok(interval) => Some(interval),
        Err(_) => None,
    }
}

// The number, where it is a finite index, or the infinity that stands where there is no number.
fn index_or(number: Option<i128>, infinity: i64) -> Option<i64>
    ensures { result ≡ index_or number infinity }
{
    match number {
        None => Some(infinity),
        Some(number) => {
            if is_index(number) {
                Some(number as i64)
            } else {
                None
            }
        }
    }
}
