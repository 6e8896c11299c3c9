// Index arrays as nested lists.
ghost use Rattle.std.specs.Prelude.{◌≡◌, ◌++◌, [], Some, None, IfOk, OnOk, option_map, replicate, if◌then◌else◌};
ghost use Rattle.serde_json.specs.View.{view};
ghost use Rattle.transform_json.specs.Arrays.{nested_sizes, nested_entries, array_of};

use cells::{Index, MOST_ENTRIES, Sizes, count_cells};
use index_intervals::{Interval, is_index};
use index_transform::fits;
use json_forms::{list_items, whole_number};
use serde_json::Value;
use std::alloc::{AllocError, Global};

/// The sizes of nested lists, by the first of each, and the indices in them, in C order.
#[derive(Drop)]
pub(crate) struct IndexArray {
    pub(crate) sizes: Sizes,
    pub(crate) entries: Index,
}

/// The index array over dimensions, where the value is one.
pub(crate) fn array_of(
    alloc: Global,
    dims: &[Interval],
    value: &Value,
) -> Result<Option<IndexArray>, AllocError>
    ensures { IfOk result (λ o. o ≡ array_of dims.now (view value.now)) }
{
    let mut sizes = Vec::with_capacity(alloc, dims.len())?;
    if !put_sizes(dims.len(), value, &mut sizes)? {
        return Ok(None);
    }
    if !fits(dims, sizes.as_slice()) {
        return Ok(None);
    }
    let Some(count) = count_cells(sizes.as_slice(), MOST_ENTRIES) else {
        return Ok(None);
    };
    let mut entries = Vec::with_capacity(alloc, count as usize)?;
    if put_entries(sizes.as_slice(), value, &mut entries)? {
        Ok(Some(IndexArray {
            sizes: Sizes::wrap(sizes),
            entries: Index::wrap(entries),
        }))
    } else {
        Ok(None)
    }
}

// Appends the sizes of nested lists of this depth; false where there is no such list.
fn put_sizes(depth: usize, value: &Value, out: &mut Vec<u64>) -> Result<bool, AllocError>
    ensures { IfOk result (λ good. (if good then Some out.new.items else None)
        ≡ option_map (λ sizes. out.old.items ++ sizes) (nested_sizes depth (view value.now))) }
{
    if depth == 0 {
        return Ok(true);
    }
    let Some(items) = list_items(value) else {
        return Ok(false);
    };
    out.push(items.len() as u64)?;
    match items {
        [] => {
            put_ones(depth - 1, out)?;
            Ok(true)
        }
        [first, ..] => put_sizes(depth - 1, first, out),
    }
}

fn put_ones(count: usize, out: &mut Vec<u64>) -> Result<(), AllocError>
    ensures { OnOk result (out.new.items ≡ out.old.items ++ replicate count 1) }
{
    for _place in 0..count {
        out.push(1)?;
    }
    Ok(())
}

// Appends the indices of nested lists of these sizes; false where there are no such lists.
fn put_entries(sizes: &[u64], value: &Value, out: &mut Vec<i64>) -> Result<bool, AllocError>
    ensures { IfOk result (λ good. (if good then Some out.new.items else None)
        ≡ option_map (λ entries. out.old.items ++ entries) (nested_entries sizes.now (view value.now))) }
{
    let [size, behind @ ..] = sizes else {
        return put_entry(value, out);
    };
    let Some(items) = list_items(value) else {
        return Ok(false);
    };
    if items.len() as u64 != *size {
        return Ok(false);
    }
    for item in items {
        if !put_entries(behind, item, out)? {
            return Ok(false);
        }
    }
    Ok(true)
}

fn put_entry(value: &Value, out: &mut Vec<i64>) -> Result<bool, AllocError>
    ensures { IfOk result (λ good. (if good then Some out.new.items else None)
        ≡ option_map (λ entries. out.old.items ++ entries) (nested_entries [] (view value.now))) }
{
    let Some(entry) = whole_number(value) else {
        return Ok(false);
    };
    if !is_index(entry) {
        return Ok(false);
    }
    out.push(entry as i64)?;
    Ok(true)
}
