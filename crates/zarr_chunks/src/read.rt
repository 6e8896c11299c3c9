// Metadata from JSON.
ghost use Rattle.std.specs.Prelude.{◌≡◌, ◌≢◌, Some, Ok, Err, IfOk, IfErr, false};
ghost use Rattle.std.specs.Option.{ForSome};
ghost use Rattle.serde_json.specs.View.{view};
ghost use Rattle.chunk_elements.specs.Bytes.{byte_count};
ghost use Rattle.chunk_elements.specs.Numbers.{IsWord};
ghost use Rattle.meta_forms.specs.Judged.{whole_at};
ghost use Rattle.meta_forms.specs.declared.error.MetaError.{MetaError};
ghost use Rattle.zarr_chunks.specs.Described.{SpellsMetadata};
ghost use Rattle.zarr_chunks.specs.Read.{judged_type, judged_compressor, judged_fill, judged_order, judged_filters, judged_separator, rest_of_members, metadata_of_members, metadata_of_data, metadata_of};

use crate::members::{
    judged_compressor, judged_fill, judged_filters, judged_order, judged_separator, judged_type,
};
use crate::metadata::ZarrMeta;
use chunk_elements::{Dtype, Order, Sizes};
use meta_forms::{
    MetaError, ParseError, checked_chunks, checked_shape, judged_format, named, parse, sizes_at,
    whole_at,
};
use serde_json::Value;
use std::alloc::Global;

/// The metadata that bytes are. Further members are passed over, and of a repeated member the last counts.
///
/// Zarr version 2, "Metadata".
///
/// # Errors
/// `NotJson` where the bytes are no JSON object. Else the first member at fault, in the order `zarr_format`, `shape`,
/// `chunks`, `dtype`, `compressor`, `fill_value`, `order`, `filters`, `dimension_separator`: `Unsupported` for another whole
/// number as format, another text or a list as `dtype`, an object as compressor and a list of filters; `BadMember` for any
/// other wrong value, and for a missing member but the last. `Memory` where an allocation failed.
pub fn read_meta(alloc: Global, bytes: &[u8]) -> Result<ZarrMeta, MetaError>
    ensures value { IfOk result (λ m. metadata_of bytes.now ≡ Ok m) }
    ensures spells { IfOk result (λ m. SpellsMetadata m bytes.now) }
    ensures causes { IfErr result (λ e. e ≢ MetaError.Memory → metadata_of bytes.now ≡ Err e) }
{
    match parse(alloc, bytes) {
        Ok(value) => metadata_of_value(alloc, &value),
        Err(ParseError::NotJson) => Err(MetaError::NotJson),
        Err(ParseError::Memory) => Err(MetaError::Memory),
    }
}

fn metadata_of_value(alloc: Global, value: &Value) -> Result<ZarrMeta, MetaError>
    ensures value { IfOk result (λ m. metadata_of_data (Some (view value.now)) ≡ Ok m) }
    ensures causes { IfErr result (λ e. e ≢ MetaError.Memory → metadata_of_data (Some (view value.now)) ≡ Err e) }
{
    if value.as_object().is_none() {
        return Err(MetaError::NotJson);
    }
    metadata_of_members(alloc, value)
}

fn metadata_of_members(alloc: Global, value: &Value) -> Result<ZarrMeta, MetaError>
    ensures value { IfOk result (λ m. metadata_of_members (view value.now) ≡ Ok m) }
    ensures causes { IfErr result (λ e. e ≢ MetaError.Memory → metadata_of_members (view value.now) ≡ Err e) }
{
    named(
        alloc,
        "zarr_format",
        judged_format(whole_at(value, "zarr_format"), 2),
    )?;
    let shape = checked_shape(alloc, "shape", sizes_at(alloc, value, "shape")?)?;
    let chunks = checked_chunks(
        alloc,
        "chunks",
        shape.len(),
        sizes_at(alloc, value, "chunks")?,
    )?;
    let rest = rest_of_members(alloc, value)?;
    Ok(ZarrMeta {
        shape: Sizes::wrap(shape),
        chunks: Sizes::wrap(chunks),
        dtype: rest.dtype,
        big: rest.big,
        fill: rest.fill,
        order: rest.order,
        slash: rest.slash,
    })
}

/// What the members behind the two shapes say.
#[derive(Clone, Copy, Debug, PartialEq, Eq)]
pub(crate) struct Rest {
    pub dtype: Dtype,
    pub big: bool,
    pub fill: Option<u64>,
    pub order: Order,
    pub slash: bool,
}

fn rest_of_members(alloc: Global, value: &Value) -> Result<Rest, MetaError>
    ensures value { IfOk result (λ rest. rest_of_members (view value.now) ≡ Ok rest) }
    ensures fill { IfOk result (λ rest. ForSome rest.fill (IsWord rest.dtype)) }
    ensures one_byte { IfOk result (λ rest. byte_count rest.dtype ≡ 1 → rest.big ≡ false) }
    ensures causes { IfErr result (λ e. e ≢ MetaError.Memory → rest_of_members (view value.now) ≡ Err e) }
{
    let t = named(alloc, "dtype", judged_type(value))?;
    named(alloc, "compressor", judged_compressor(value))?;
    let fill = named(alloc, "fill_value", judged_fill(t.dtype, value))?;
    let order = named(alloc, "order", judged_order(value))?;
    named(alloc, "filters", judged_filters(value))?;
    let slash = named(alloc, "dimension_separator", judged_separator(value))?;
    Ok(Rest {
        dtype: t.dtype,
        big: t.big,
        fill,
        order,
        slash,
    })
}
