// The domain of a transform, from its input members.
ghost use Rattle.std.specs.Prelude.{◌≡◌, ◌≢◌, [], Ok, Err, IfOk, IfErr, map, find, replicate, option_map};
ghost use Rattle.json_forms.specs.Lists.{all_of};
ghost use Rattle.serde_json.specs.Find.{as_str};
ghost use Rattle.serde_json.specs.View.{view};
ghost use Rattle.transform_json.specs.Input.{rank_number, rank_of_lists, rank_of, given_labels, labels_of, domain_of};
ghost use Rattle.transform_json.specs.Members.{list_members, has, items_at, items_of_len, first_some, is_text};

use crate::bounds::lowers_of;
use crate::error::{JsonError, bad_member};
use crate::uppers::dims_of;
use cells::{List, Name};
use index_transform::{Domain, are_labels};
use json_forms::list_items;
use serde_json::Value;
use std::alloc::{AllocError, Global};

/// The domain: its rank, its lower bounds, its intervals, its labels, the first fault in this order.
pub(crate) fn domain_of(alloc: Global, value: &Value) -> Result<Domain, JsonError>
    ensures value { IfOk result (λ domain. domain_of (view value.now) ≡ Ok domain) }
    ensures causes { IfErr result (λ e. e ≢ JsonError.Memory → domain_of (view value.now) ≡ Err e) }
{
    let rank = rank_of(alloc, value)?;
    let lowers = lowers_of(alloc, value, rank)?;
    let dims = dims_of(alloc, value, lowers.as_slice())?;
    let labels = labels_of(alloc, value, rank)?;
    Ok(Domain {
        dims: List::wrap(dims),
        labels: List::wrap(labels),
    })
}

/// The rank: `input_rank`, or else that of a list.
pub(crate) fn rank_of(alloc: Global, value: &Value) -> Result<usize, JsonError>
    ensures value { IfOk result (λ rank. rank_of (view value.now) ≡ Ok rank) }
    ensures causes { IfErr result (λ e. e ≢ JsonError.Memory → rank_of (view value.now) ≡ Err e) }
{
    let Some(member) = value.get("input_rank") else {
        return rank_of_lists(alloc, value);
    };
    match rank_number(member) {
        Some(rank) => Ok(rank),
        None => Err(bad_member(alloc, "input_rank")),
    }
}

fn rank_of_lists(alloc: Global, value: &Value) -> Result<usize, JsonError>
    ensures value { IfOk result (λ rank. rank_of_lists (view value.now) ≡ Ok rank) }
    ensures causes { IfErr result (λ e. e ≢ JsonError.Memory → rank_of_lists (view value.now) ≡ Err e) }
{
    match first_list(value) {
        Some(items) => {
            if items.len() <= 32 {
                Ok(items.len())
            } else {
                Err(bad_member(alloc, "input_rank"))
            }
        }
        None => match first_member(value) {
            Some(name) => Err(bad_member(alloc, name)),
            None => Err(bad_member(alloc, "input_rank")),
        },
    }
}

fn rank_number(value: &Value) -> Option<usize>
    ensures { result ≡ rank_number (view value.now) }
{
    let rank = value.as_u64()?;
    if rank <= 32 {
        Some(rank as usize)
    } else {
        None
    }
}

fn first_list(value: &Value) -> Option<&[Value]>
    ensures { option_map (λ items. map view items.now) result ≡ first_some (items_at (view value.now)) list_members }
{
    if let Some(items) = items_at(value, "input_inclusive_min") {
        return Some(items);
    }
    if let Some(items) = items_at(value, "input_exclusive_max") {
        return Some(items);
    }
    if let Some(items) = items_at(value, "input_inclusive_max") {
        return Some(items);
    }
    if let Some(items) = items_at(value, "input_shape") {
        return Some(items);
    }
    items_at(value, "input_labels")
}

fn first_member(value: &Value) -> Option<&'static str>
    ensures { option_map (λ name. name.now) result ≡ find (has (view value.now)) list_members }
{
    if has(value, "input_inclusive_min") {
        return Some("input_inclusive_min");
    }
    if has(value, "input_exclusive_max") {
        return Some("input_exclusive_max");
    }
    if has(value, "input_inclusive_max") {
        return Some("input_inclusive_max");
    }
    if has(value, "input_shape") {
        return Some("input_shape");
    }
    if has(value, "input_labels") {
        Some("input_labels")
    } else {
        None
    }
}

// The labels, none where they aren't given.
fn labels_of(alloc: Global, value: &Value, rank: usize) -> Result<Vec<Name>, JsonError>
    ensures value { IfOk result (λ v. labels_of (view value.now) rank ≡ Ok v.items) }
    ensures causes { IfErr result (λ e. e ≢ JsonError.Memory → labels_of (view value.now) rank ≡ Err e) }
{
    if !has(value, "input_labels") {
        return Ok(no_labels(alloc, rank)?);
    }
    match given_labels(alloc, value, rank)? {
        Some(labels) => Ok(labels),
        None => Err(bad_member(alloc, "input_labels")),
    }
}

fn no_labels(alloc: Global, rank: usize) -> Result<Vec<Name>, AllocError>
    ensures { IfOk result (λ v. v.items ≡ replicate rank []) }
{
    let mut labels = Vec::with_capacity(alloc, rank)?;
    for _place in 0..rank {
        labels.push(Name::wrap(String::new(alloc)))?;
    }
    Ok(labels)
}

fn given_labels(alloc: Global, value: &Value, rank: usize) -> Result<Option<Vec<Name>>, AllocError>
    ensures { IfOk result (λ o. option_map (λ v. v.items) o ≡ given_labels (view value.now) rank) }
{
    let Some(items) = items_of_len(value, "input_labels", rank) else {
        return Ok(None);
    };
    let Some(labels) = texts(alloc, items)? else {
        return Ok(None);
    };
    if are_labels(labels.as_slice()) {
        Ok(Some(labels))
    } else {
        Ok(None)
    }
}

fn texts(alloc: Global, items: &[Value]) -> Result<Option<Vec<Name>>, AllocError>
    ensures { IfOk result (λ o. option_map (λ v. v.items) o ≡ all_of as_str (map view items.now)) }
{
    let mut labels = Vec::with_capacity(alloc, items.len())?;
    for item in items {
        let Some(text) = item.as_str() else {
            return Ok(None);
        };
        labels.push(Name::wrap(String::from_str(alloc, text)?))?;
    }
    Ok(Some(labels))
}

/// Whether the member is there.
pub(crate) fn has(value: &Value, name: &str) -> bool
    ensures { result ≡ has (view value.now) name.now }
{
    value.get(name).is_some()
}

/// The items of a member that is a list.
pub(crate) fn items_at<'v>(value: &'v Value, name: &str) -> Option<&'v [Value]>
    ensures { option_map (λ items. map view items.now) result ≡ items_at (view value.now) name.now }
{
    list_items(value.get(name)?)
}

/// The items of a member that is a list of this length.
pub(crate) fn items_of_len<'v>(value: &'v Value, name: &str, rank: usize) -> Option<&'v [Value]>
    ensures { option_map (λ items. map view items.now) result ≡ items_of_len (view value.now) name.now rank }
{
    let items = items_at(value, name)?;
    if items.len() == rank {
        Some(items)
    } else {
        None
    }
}

pub(crate) fn is_text(value: &Value, text: &str) -> bool
    ensures { result ≡ is_text text.now (view value.now) }
{
    match value.as_str() {
        Some(held) => held == text,
        None => false,
    }
}
