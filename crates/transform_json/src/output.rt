// Output maps, from their members.
ghost use Rattle.std.specs.Prelude.{◌≡◌, ◌≢◌, ◌≤◌, ◌++◌, Ok, Err, IfOk, IfErr, codes, decimal, length, map};
ghost use Rattle.std.specs.List.{list_all};
ghost use Rattle.index_transform.specs.Identity.{identity_maps};
ghost use Rattle.serde_json.specs.View.{view};
ghost use Rattle.transform_json.specs.Output.{array_in, is_in_range, map_in, map_of, maps_from, maps_of};

use crate::arrays::{IndexArray, array_of};
use crate::error::{JsonError, bad_member};
use crate::input::{has, items_at};
use crate::member::{EntryRange, dim_at, faulty_member, number_in, range_at};
use cells::Name;
use index_intervals::Interval;
use index_transform::OutMap;
use serde_json::Value;
use std::alloc::{AllocError, Global};

/// The maps: at most 32, or the identity where none are given.
pub(crate) fn maps_of(
    alloc: Global,
    value: &Value,
    dims: &[Interval],
) -> Result<Vec<OutMap>, JsonError>
    requires { length dims.now ≤ 32 }
    ensures value { IfOk result (λ v. maps_of (view value.now) dims.now ≡ Ok v.items) }
    ensures causes { IfErr result (λ e. e ≢ JsonError.Memory → maps_of (view value.now) dims.now ≡ Err e) }
{
    if !has(value, "output") {
        return Ok(identity(alloc, dims)?);
    }
    let Some(items) = items_at(value, "output") else {
        return Err(bad_member(alloc, "output"));
    };
    if 32 < items.len() {
        return Err(bad_member(alloc, "output"));
    }
    maps_of_items(alloc, items, dims)
}

fn identity(alloc: Global, dims: &[Interval]) -> Result<Vec<OutMap>, AllocError>
    requires { length dims.now ≤ 32 }
    ensures { IfOk result (λ v. v.items ≡ identity_maps 0 dims.now) }
{
    let mut maps = Vec::with_capacity(alloc, dims.len())?;
    for dim in 0..dims.len() {
        maps.push(OutMap::Strided {
            offset: 0,
            stride: 1,
            dim: dim as u32,
        })?;
    }
    Ok(maps)
}

fn maps_of_items(
    alloc: Global,
    items: &[Value],
    dims: &[Interval],
) -> Result<Vec<OutMap>, JsonError>
    requires rank { length dims.now ≤ 32 }
    requires few { length items.now ≤ 32 }
    ensures value { IfOk result (λ v. maps_from 0 dims.now (map view items.now) ≡ Ok v.items) }
    ensures causes { IfErr result (λ e. e ≢ JsonError.Memory → maps_from 0 dims.now (map view items.now) ≡ Err e) }
{
    let mut maps = Vec::with_capacity(alloc, items.len())?;
    for output in 0..items.len() {
        maps.push(map_of(alloc, output as u32, dims, &items[output])?)?;
    }
    Ok(maps)
}

fn map_of(alloc: Global, output: u32, dims: &[Interval], value: &Value) -> Result<OutMap, JsonError>
    requires { length dims.now ≤ 32 }
    ensures value { IfOk result (λ m. map_of (codes "output/" ++ decimal output) dims.now (view value.now) ≡ Ok m) }
    ensures causes { IfErr result (λ e. e ≢ JsonError.Memory
        → map_of (codes "output/" ++ decimal output) dims.now (view value.now) ≡ Err e) }
{
    if value.as_object().is_none() {
        return Err(bad_output(alloc, output));
    }
    let array = array_in(alloc, dims, value)?;
    if let Some(name) = faulty_member(value, dims.len(), array.is_some()) {
        return Err(bad_member_of(alloc, output, name));
    }
    Ok(map_in(value, dims.len(), array))
}

fn bad_output(alloc: Global, output: u32) -> JsonError
    ensures { result ≢ JsonError.Memory → result ≡ JsonError.BadMember (codes "output/" ++ decimal output) }
{
    match format!(in alloc; "output/{output}") {
        Ok(path) => JsonError::BadMember {
            path: Name::wrap(path),
        },
        Err(_) => JsonError::Memory,
    }
}

fn bad_member_of(alloc: Global, output: u32, name: &str) -> JsonError
    ensures { result ≢ JsonError.Memory
        → result ≡ JsonError.BadMember (codes "output/" ++ decimal output ++ codes "/" ++ name.now) }
{
    match format!(in alloc; "output/{output}/{name}") {
        Ok(path) => JsonError::BadMember {
            path: Name::wrap(path),
        },
        Err(_) => JsonError::Memory,
    }
}

// The map of members that are what they may be.
fn map_in(value: &Value, rank: usize, array: Option<IndexArray>) -> OutMap
    requires { rank ≤ 32 }
    ensures { result ≡ map_in rank array (view value.now) }
{
    let offset = number_in(value, "offset").unwrap_or(0);
    let stride = number_in(value, "stride").unwrap_or(1);
    if let Some(array) = array {
        return OutMap::Indexed {
            offset,
            stride,
            sizes: array.sizes,
            entries: array.entries,
        };
    }
    match dim_at(value, rank) {
        Some(dim) => OutMap::Strided {
            offset,
            stride,
            dim: dim as u32,
        },
        None => OutMap::Constant { offset },
    }
}

// The index array, whose entries keep the range that a further member allows.
fn array_in(
    alloc: Global,
    dims: &[Interval],
    value: &Value,
) -> Result<Option<IndexArray>, AllocError>
    ensures { IfOk result (λ o. o ≡ array_in dims.now (view value.now)) }
{
    let Some(member) = value.get("index_array") else {
        return Ok(None);
    };
    let Some(array) = array_of(alloc, dims, member)? else {
        return Ok(None);
    };
    let Some(range) = range_at(value) else {
        return Ok(Some(array));
    };
    if are_in_range(array.entries.items(), range) {
        Ok(Some(array))
    } else {
        Ok(None)
    }
}

fn are_in_range(entries: &[i64], range: EntryRange) -> bool
    ensures { result ≡ list_all (is_in_range range) entries.now }
{
    entries.iter().all(|entry| is_in_range(*entry, range))
}

fn is_in_range(entry: i64, range: EntryRange) -> bool
    ensures { result ≡ is_in_range range entry }
{
    let entry = i128::from(entry);
    range.least <= entry && entry <= range.greatest
}
