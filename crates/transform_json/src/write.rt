// Transforms and domains as JSON.
ghost use Rattle.std.specs.Prelude.{◌≡◌, ◌≤◌, ◌<◌, ◌==◌, ◌↔◌, false, codes, Ok, IsTrue, IfOk, IfSome, OnOk, map, length};
ghost use Rattle.std.specs.List.{AllByRecursion, list_all, position_from};
ghost use Rattle.serde_json.specs.View.{view, members_view};
ghost use Rattle.serde_json.specs.Data.{string, object, put as with_member};
ghost use Rattle.serde_json.specs.Written.{has_float};
ghost use Rattle.json_forms.specs.Lists.{list_of};
ghost use Rattle.cells.specs.Places.{cell_count};
ghost use Rattle.index_intervals.specs.Bounds.{AreBounds};
ghost use Rattle.index_transform.specs.Transforms.{IsTransform};
ghost use Rattle.transform_json.specs.Transforms.{transform_of};
ghost use Rattle.transform_json.specs.Written.{has_entries, has_sizes, HasWords, HasFewLists, before_zero, flagged, lower_data, upper_data, are_unlabelled, with_labels, with_number, domain_data, nested_data, map_data, transform_data};

use cells::{MOST_ENTRIES, Name, count_cells};
use index_intervals::{INFINITY, Interval};
use index_transform::{Domain, OutMap, Transform};
use serde_json::{Map, Value, put};
use std::alloc::{AllocError, Global};

/// The JSON of a domain: `exclusive_max`, `inclusive_min`, and `labels` where some label isn't empty. An implicit bound
/// stands in a list of its own, and "+inf" and "-inf" for a missing one.
///
/// # Errors
/// An allocation failed.
pub fn write_domain(alloc: Global, d: &Domain) -> Result<Value, AllocError>
    ensures value { IfOk result (λ v. view v ≡ domain_data d.now) }
    ensures plain { IfOk result (λ v. has_float (view v) ≡ false) }
{
    Ok(Value::Object(members_of_domain(alloc, d)?))
}

fn members_of_domain(alloc: Global, d: &Domain) -> Result<Map<String, Value>, AllocError>
    ensures { IfOk result (λ m. object (members_view m.entries) ≡ domain_data d.now) }
{
    let dims = d.dims.items();
    let mut members = Map::new(alloc);
    put_labels(alloc, &mut members, "labels", d.labels.items())?;
    put_lowers(alloc, &mut members, "inclusive_min", dims)?;
    put_uppers(alloc, &mut members, "exclusive_max", dims)?;
    Ok(members)
}

/// The JSON of a transform: `input_exclusive_max`, `input_inclusive_min`, `input_labels` where some label isn't empty,
/// `input_rank`, and `output`. An output map has `index_array` or `input_dimension`, `offset` where it isn't 0, and
/// `stride` where it isn't 1.
///
/// TensorStore, "Index space", JSON of index transforms.
///
/// # Errors
/// An allocation failed; so it is, too, where an index array has more than 2^22 nested lists before a size of 0, of which
/// a short line could ask for 2^42 (`transform_has_few_lists`).
pub fn write_transform(alloc: Global, t: &Transform) -> Result<Value, AllocError>
    ensures value { IfOk result (λ v. view v ≡ transform_data t.now) }
    ensures plain { IfOk result (λ v. has_float (view v) ≡ false) }
    ensures few { OnOk result (AllByRecursion HasFewLists t.now.maps) }
    ensures again { IfOk result (λ v. IsTrue (list_all has_sizes t.now.maps) → transform_of (view v) ≡ Ok t.now) }
{
    Ok(Value::Object(members_of_transform(alloc, t)?))
}

fn members_of_transform(alloc: Global, t: &Transform) -> Result<Map<String, Value>, AllocError>
    ensures value { IfOk result (λ m. object (members_view m.entries) ≡ transform_data t.now) }
    ensures well_formed { IsTransform t.now }
    ensures bounds { OnOk result (AllByRecursion AreBounds t.now.domain.dims) }
    ensures words { OnOk result (AllByRecursion HasWords t.now.maps) }
    ensures few { OnOk result (AllByRecursion HasFewLists t.now.maps) }
{
    let domain = t.domain();
    let dims = domain.dims.items();
    let mut members = Map::new(alloc);
    put_outputs(alloc, &mut members, t.maps())?;
    put(
        &mut members,
        alloc,
        "input_rank",
        Value::from(dims.len() as u64),
    )?;
    put_labels(alloc, &mut members, "input_labels", domain.labels.items())?;
    put_lowers(alloc, &mut members, "input_inclusive_min", dims)?;
    put_uppers(alloc, &mut members, "input_exclusive_max", dims)?;
    Ok(members)
}

// Puts the lower bounds under a name.
fn put_lowers(
    alloc: Global,
    members: &mut Map<String, Value>,
    name: &str,
    dims: &[Interval],
) -> Result<(), AllocError>
    ensures { OnOk result (members_view members.new.entries
        ≡ with_member name.now (list_of (map lower_data dims.now)) (members_view members.old.entries)) }
{
    put(members, alloc, name, lowers(alloc, dims)?)
}

// Puts the upper bounds under a name.
fn put_uppers(
    alloc: Global,
    members: &mut Map<String, Value>,
    name: &str,
    dims: &[Interval],
) -> Result<(), AllocError>
    ensures value { OnOk result (members_view members.new.entries
        ≡ with_member name.now (list_of (map upper_data dims.now)) (members_view members.old.entries)) }
    ensures bounds { OnOk result (AllByRecursion AreBounds dims.now) }
{
    put(members, alloc, name, uppers(alloc, dims)?)
}

// Puts the output maps.
fn put_outputs(
    alloc: Global,
    members: &mut Map<String, Value>,
    maps: &[OutMap],
) -> Result<(), AllocError>
    requires { IsTrue (list_all has_entries maps.now) }
    ensures value { OnOk result (members_view members.new.entries
        ≡ with_member (codes "output") (list_of (map map_data maps.now)) (members_view members.old.entries)) }
    ensures words { OnOk result (AllByRecursion HasWords maps.now) }
    ensures few { OnOk result (AllByRecursion HasFewLists maps.now) }
{
    put(members, alloc, "output", outputs(alloc, maps)?)
}

fn lowers(alloc: Global, dims: &[Interval]) -> Result<Value, AllocError>
    ensures { IfOk result (λ v. view v ≡ list_of (map lower_data dims.now)) }
{
    let mut items = Vec::with_capacity(alloc, dims.len())?;
    for dim in dims {
        items.push(lower(alloc, dim)?)?;
    }
    Ok(Value::Array(items))
}

fn uppers(alloc: Global, dims: &[Interval]) -> Result<Value, AllocError>
    ensures value { IfOk result (λ v. view v ≡ list_of (map upper_data dims.now)) }
    ensures bounds { OnOk result (AllByRecursion AreBounds dims.now) }
{
    let mut items = Vec::with_capacity(alloc, dims.len())?;
    for dim in dims {
        items.push(upper(alloc, dim)?)?;
    }
    Ok(Value::Array(items))
}

fn lower(alloc: Global, dim: &Interval) -> Result<Value, AllocError>
    ensures { IfOk result (λ v. view v ≡ lower_data dim.now) }
{
    let bound = if dim.lo == -INFINITY {
        Value::try_from_str(alloc, "-inf")?
    } else {
        Value::from(dim.lo)
    };
    flagged(alloc, dim.lo_implicit, bound)
}

fn upper(alloc: Global, dim: &Interval) -> Result<Value, AllocError>
    ensures value { IfOk result (λ v. view v ≡ upper_data dim.now) }
    ensures bounds { AreBounds dim.now }
{
    let bound = if dim.hi == INFINITY {
        Value::try_from_str(alloc, "+inf")?
    } else {
        Value::from(dim.hi + 1)
    };
    flagged(alloc, dim.hi_implicit, bound)
}

fn flagged(alloc: Global, implicit: bool, value: Value) -> Result<Value, AllocError>
    ensures { IfOk result (λ v. view v ≡ flagged implicit (view value)) }
{
    if implicit {
        let mut items = Vec::new(alloc);
        items.push(value)?;
        Ok(Value::Array(items))
    } else {
        Ok(value)
    }
}

fn put_labels(
    alloc: Global,
    members: &mut Map<String, Value>,
    name: &str,
    labels: &[Name],
) -> Result<(), AllocError>
    ensures { OnOk result (members_view members.new.entries
        ≡ with_labels name.now labels.now (members_view members.old.entries)) }
{
    if are_unlabelled(labels) {
        return Ok(());
    }
    put(members, alloc, name, texts(alloc, labels)?)
}

fn are_unlabelled(labels: &[Name]) -> bool
    ensures { result ≡ are_unlabelled labels.now }
{
    labels.iter().all(|label| label.items().len() == 0)
}

fn texts(alloc: Global, labels: &[Name]) -> Result<Value, AllocError>
    ensures { IfOk result (λ v. view v ≡ list_of (map string labels.now)) }
{
    let mut items = Vec::with_capacity(alloc, labels.len())?;
    for label in labels {
        items.push(Value::try_from_str(alloc, label.items())?)?;
    }
    Ok(Value::Array(items))
}

fn outputs(alloc: Global, maps: &[OutMap]) -> Result<Value, AllocError>
    requires { IsTrue (list_all has_entries maps.now) }
    ensures value { IfOk result (λ v. view v ≡ list_of (map map_data maps.now)) }
    ensures words { OnOk result (AllByRecursion HasWords maps.now) }
    ensures few { OnOk result (AllByRecursion HasFewLists maps.now) }
{
    let mut items = Vec::with_capacity(alloc, maps.len())?;
    for one in maps {
        items.push(output(alloc, one)?)?;
    }
    Ok(Value::Array(items))
}

fn output(alloc: Global, one: &OutMap) -> Result<Value, AllocError>
    requires { IsTrue (has_entries one.now) }
    ensures value { IfOk result (λ v. view v ≡ map_data one.now) }
    ensures words { OnOk result (HasWords one.now) }
    ensures few { OnOk result (HasFewLists one.now) }
{
    match one {
        OutMap::Constant { offset } => constant(alloc, *offset),
        OutMap::Strided {
            offset,
            stride,
            dim,
        } => strided(alloc, *offset, *stride, *dim),
        OutMap::Indexed {
            offset,
            stride,
            sizes,
            entries,
        } => indexed(alloc, *offset, *stride, sizes.items(), entries.items()),
    }
}

fn constant(alloc: Global, offset: i64) -> Result<Value, AllocError>
    ensures value { IfOk result (λ v. view v ≡ map_data (OutMap.Constant offset)) }
    ensures words { OnOk result (HasWords (OutMap.Constant offset)) }
{
    let mut members = Map::new(alloc);
    put_number(alloc, &mut members, "offset", 0, offset)?;
    Ok(Value::Object(members))
}

fn strided(alloc: Global, offset: i64, stride: i64, dim: u32) -> Result<Value, AllocError>
    ensures value { IfOk result (λ v. view v ≡ map_data (OutMap.Strided offset stride dim)) }
    ensures words { OnOk result (HasWords (OutMap.Strided offset stride dim)) }
{
    let mut members = Map::new(alloc);
    put_number(alloc, &mut members, "stride", 1, stride)?;
    put_number(alloc, &mut members, "offset", 0, offset)?;
    let dim = Value::from(u64::from(dim));
    put(&mut members, alloc, "input_dimension", dim)?;
    Ok(Value::Object(members))
}

fn indexed(
    alloc: Global,
    offset: i64,
    stride: i64,
    sizes: &[u64],
    entries: &[i64],
) -> Result<Value, AllocError>
    requires { length entries.now ≡ cell_count sizes.now }
    ensures value { IfOk result (λ v. view v ≡ map_data (OutMap.Indexed offset stride sizes.now entries.now)) }
    ensures words { OnOk result (HasWords (OutMap.Indexed offset stride sizes.now entries.now)) }
    ensures few { OnOk result (cell_count (before_zero sizes.now) ≤ 4194304) }
{
    if !are_few_lists(sizes) {
        return Err(AllocError);
    }
    let mut members = Map::new(alloc);
    put_number(alloc, &mut members, "stride", 1, stride)?;
    put_number(alloc, &mut members, "offset", 0, offset)?;
    let array = nested(alloc, sizes, entries)?;
    put(&mut members, alloc, "index_array", array)?;
    Ok(Value::Object(members))
}

fn put_number(
    alloc: Global,
    members: &mut Map<String, Value>,
    name: &str,
    usual: i64,
    number: i64,
) -> Result<(), AllocError>
    ensures { OnOk result (members_view members.new.entries
        ≡ with_number name.now usual number (members_view members.old.entries)) }
{
    if number == usual {
        return Ok(());
    }
    put(members, alloc, name, Value::from(number))
}

/// Whether each index array of a transform takes 2^22 nested lists at most before a size of 0. Else the transform isn't written.
pub fn transform_has_few_lists(t: &Transform) -> bool
    ensures few { IsTrue result → AllByRecursion HasFewLists t.now.maps }
    ensures many { result ≡ false → ¬ (AllByRecursion HasFewLists t.now.maps) }
{
    have_few_lists(t.maps())
}

fn have_few_lists(maps: &[OutMap]) -> bool
    ensures few { IsTrue result → AllByRecursion HasFewLists maps.now }
    ensures many { result ≡ false → ¬ (AllByRecursion HasFewLists maps.now) }
{
    for one in maps {
        if !takes_few_lists(one) {
            return false;
        }
    }
    true
}

fn takes_few_lists(one: &OutMap) -> bool
    ensures few { IsTrue result → HasFewLists one.now }
    ensures many { result ≡ false → ¬ (HasFewLists one.now) }
{
    match one {
        OutMap::Indexed { sizes, .. } => are_few_lists(sizes.items()),
        OutMap::Strided { .. } => true,
        OutMap::Constant { .. } => true,
    }
}

// Whether 2^22 lists at most stand before a size of 0.
fn are_few_lists(sizes: &[u64]) -> bool
    ensures { IsTrue result ↔ (cell_count (before_zero sizes.now) ≤ 4194304) }
{
    count_cells(before_zero(sizes), MOST_ENTRIES).is_some()
}

// The sizes before the first that is 0.
fn before_zero(sizes: &[u64]) -> &[u64]
    ensures { result.now ≡ before_zero sizes.now }
{
    match first_zero(sizes) {
        Some(place) => &sizes[..place],
        None => sizes,
    }
}

fn first_zero(sizes: &[u64]) -> Option<usize>
    ensures place { result ≡ position_from (λ size. size == 0) 0 sizes.now }
    ensures bound { IfSome result (λ place. place < length sizes.now) }
{
    sizes.iter().position(|size| *size == 0)
}

// Entries as nested lists of these sizes.
fn nested(alloc: Global, sizes: &[u64], entries: &[i64]) -> Result<Value, AllocError>
    requires { length entries.now ≡ cell_count sizes.now }
    ensures { IfOk result (λ v. view v ≡ nested_data sizes.now entries.now) }
{
    let [size, behind @ ..] = sizes else {
        return Ok(Value::from(entries[0]));
    };
    let size = *size as usize;
    let mut items = Vec::with_capacity(alloc, size)?;
    if size == 0 {
        return Ok(Value::Array(items));
    }
    let row = entries.len() / size;
    for i in 0..size {
        let from = i * row;
        items.push(nested(alloc, behind, &entries[from..from + row])?)?;
    }
    Ok(Value::Array(items))
}
