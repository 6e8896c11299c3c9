// Parts of dimensions, and flags.
ghost use Rattle.std.specs.Prelude.{◌≡◌, IfOk, Option, Some, option_map, map};
ghost use Rattle.serde_json.specs.View.{view};
ghost use Rattle.serde_json.specs.Find.{get, as_bool};
ghost use Rattle.step_forms.specs.Forms.{index_of, or_null, left_out_or, list_by};
ghost use Rattle.step_forms.specs.Acts.{has_only, slice_part_of, slices_of, marks_of, two_flags};

use crate::act::{Act, SlicePart, Slices};
use crate::numbers::{index_of, index_or_null};
use index_transform::List;
use json_forms::{least_unknown, list_items};
use serde_json::Value;
use std::alloc::{AllocError, Global};

/// Whether a value is an object with no other member than these.
pub(crate) fn has_only(value: &Value, names: &[&str]) -> bool
    ensures { result ≡ has_only (map (λ n. n.now) names.now) (view value.now) }
{
    value.as_object().is_some() && least_unknown(value, names).is_none()
}

/// A member that is an index, null or left out.
fn part_at(value: &Value, key: &str) -> Option<Option<i64>>
    ensures { result ≡ left_out_or (or_null index_of) (get key.now (view value.now)) }
{
    match value.get(key) {
        Some(found) => index_or_null(found),
        None => Some(None),
    }
}

/// A member that is an index or left out.
pub(crate) fn index_at(value: &Value, key: &str) -> Option<Option<i64>>
    ensures { result ≡ left_out_or (λ v. option_map Some (index_of v)) (get key.now (view value.now)) }
{
    match value.get(key) {
        Some(found) => match index_of(found) {
            Some(number) => Some(Some(number)),
            None => None,
        },
        None => Some(None),
    }
}

/// A part of a dimension.
fn slice_part_of(value: &Value) -> Option<SlicePart>
    ensures { result ≡ slice_part_of (view value.now) }
{
    if !has_only(value, &["start", "step", "stop"]) {
        return None;
    }
    let start = part_at(value, "start")?;
    let stop = part_at(value, "stop")?;
    let step = part_at(value, "step")?;
    Some(SlicePart {
        start,
        stop,
        step: step.unwrap_or(1),
    })
}

/// A part for all dimensions, or a list of parts.
pub(crate) fn slices_of(alloc: Global, value: &Value) -> Result<Option<Slices>, AllocError>
    ensures { IfOk result (λ o. o ≡ slices_of (view value.now)) }
{
    if value.as_object().is_some() {
        return match slice_part_of(value) {
            Some(part) => Ok(Some(Slices::All { part })),
            None => Ok(None),
        };
    }
    match slice_parts_of(alloc, value)? {
        Some(parts) => Ok(Some(Slices::Each {
            parts: List::wrap(parts),
        })),
        None => Ok(None),
    }
}

fn slice_parts_of(alloc: Global, value: &Value) -> Result<Option<Vec<SlicePart>>, AllocError>
    ensures { IfOk result (λ o. option_map (λ v. v.items) o ≡ list_by slice_part_of (view value.now)) }
{
    let Some(items) = list_items(value) else {
        return Ok(None);
    };
    let mut parts = Vec::with_capacity(alloc, items.len())?;
    for item in items {
        let Some(part) = slice_part_of(item) else {
            return Ok(None);
        };
        parts.push(part)?;
    }
    Ok(Some(parts))
}

/// A flag, or null as nothing.
fn flag_or_null(value: &Value) -> Option<Option<bool>>
    ensures { result ≡ or_null as_bool (view value.now) }
{
    if value.is_null() {
        return Some(None);
    }
    match value.as_bool() {
        Some(flag) => Some(Some(flag)),
        None => None,
    }
}

/// The flags and nulls of a list.
fn flags_of(alloc: Global, value: &Value) -> Result<Option<Vec<Option<bool>>>, AllocError>
    ensures { IfOk result (λ o. option_map (λ v. v.items) o ≡ list_by (or_null as_bool) (view value.now)) }
{
    let Some(items) = list_items(value) else {
        return Ok(None);
    };
    let mut flags = Vec::with_capacity(alloc, items.len())?;
    for item in items {
        let Some(flag) = flag_or_null(item) else {
            return Ok(None);
        };
        flags.push(flag)?;
    }
    Ok(Some(flags))
}

#[tactic(auto, using(crate::proofs::Flags::not_two, crate::proofs::Flags::two))]
fn two_flags(flags: &[Option<bool>]) -> Option<Act>
    ensures { result ≡ two_flags flags.now }
{
    if flags.len() != 2 {
        return None;
    }
    Some(Act::MarkBoundsImplicit {
        lower: flags[0],
        upper: flags[1],
    })
}

/// A flag for both bounds, or a list of two.
pub(crate) fn marks_of(alloc: Global, value: &Value) -> Result<Option<Act>, AllocError>
    ensures { IfOk result (λ o. o ≡ marks_of (view value.now)) }
{
    if let Some(flag) = value.as_bool() {
        return Ok(Some(Act::MarkBoundsImplicit {
            lower: Some(flag),
            upper: Some(flag),
        }));
    }
    match flags_of(alloc, value)? {
        Some(flags) => Ok(two_flags(&flags)),
        None => Ok(None),
    }
}
