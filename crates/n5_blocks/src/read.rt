// Metadata from JSON.
ghost use Rattle.std.specs.Prelude.{◌≡◌, ◌≢◌, ◌≤◌, Some, Ok, Err, IfOk, IfErr, codes, length, option_map};
ghost use Rattle.serde_json.specs.View.{view};
ghost use Rattle.chunk_elements.specs.Shapes.{IsShape};
ghost use Rattle.meta_forms.specs.Faults.{named};
ghost use Rattle.meta_forms.specs.Judged.{sizes_at};
ghost use Rattle.meta_forms.specs.declared.error.MetaError.{MetaError};
ghost use Rattle.n5_blocks.specs.Described.{SpellsMetadata};
ghost use Rattle.n5_blocks.specs.Read.{judged_dimensions, judged_dtype, judged_compression, metadata_of_members, metadata_of_data, metadata_of};

use crate::members::{judged_compression, judged_dtype};
use crate::metadata::N5Meta;
use chunk_elements::Sizes;
use meta_forms::{
    Fault, MetaError, ParseError, checked_chunks, checked_shape, fault_of, named, parse, sizes_at,
};
use serde_json::Value;
use std::alloc::Global;

/// The metadata that bytes are. Other members than `dimensions`, `blockSize`, `dataType` and `compression` are passed over,
/// as are those beside `type` in `compression`.
///
/// N5, "attributes.json".
///
/// # Errors
/// `NotJson` where the bytes are no JSON object. Else the first member at fault, in the order above: `Unsupported` for no
/// dimension at all, another text as `dataType`, or another text as the `type` of `compression`, and `BadMember` for any
/// other wrong value and for a missing member. `Memory` where an allocation failed.
pub fn read_meta(alloc: Global, bytes: &[u8]) -> Result<N5Meta, MetaError>
    ensures value { IfOk result (λ m. metadata_of bytes.now ≡ Ok m) }
    ensures spells { IfOk result (λ m. SpellsMetadata m bytes.now) }
    ensures causes { IfErr result (λ e. e ≢ MetaError.Memory → metadata_of bytes.now ≡ Err e) }
{
    match parse(alloc, bytes) {
        Ok(value) => metadata_of_value(alloc, &value),
        Err(ParseError::NotJson) => Err(MetaError::NotJson),
        Err(ParseError::Memory) => Err(MetaError::Memory),
    }
}

fn metadata_of_value(alloc: Global, value: &Value) -> Result<N5Meta, MetaError>
    ensures value { IfOk result (λ m. metadata_of_data (Some (view value.now)) ≡ Ok m) }
    ensures causes { IfErr result (λ e. e ≢ MetaError.Memory → metadata_of_data (Some (view value.now)) ≡ Err e) }
{
    if value.as_object().is_none() {
        return Err(MetaError::NotJson);
    }
    metadata_of_members(alloc, value)
}

fn metadata_of_members(alloc: Global, value: &Value) -> Result<N5Meta, MetaError>
    ensures value { IfOk result (λ m. metadata_of_members (view value.now) ≡ Ok m) }
    ensures causes { IfErr result (λ e. e ≢ MetaError.Memory → metadata_of_members (view value.now) ≡ Err e) }
{
    let dimensions = checked_dimensions(alloc, sizes_at(alloc, value, "dimensions")?)?;
    let block = checked_chunks(
        alloc,
        "blockSize",
        dimensions.len(),
        sizes_at(alloc, value, "blockSize")?,
    )?;
    let dtype = named(alloc, "dataType", judged_dtype(value))?;
    named(alloc, "compression", judged_compression(value))?;
    Ok(N5Meta {
        dimensions: Sizes::wrap(dimensions),
        block: Sizes::wrap(block),
        dtype,
    })
}

fn checked_dimensions(alloc: Global, sizes: Option<Vec<u64>>) -> Result<Vec<u64>, MetaError>
    ensures value { IfOk result (λ v.
        named (codes "dimensions") (judged_dimensions (option_map (λ v. v.items) sizes)) ≡ Ok v.items) }
    ensures rules { IfOk result (λ v. IsShape v.items) }
    ensures some { IfOk result (λ v. 1 ≤ length v.items) }
    ensures causes { IfErr result (λ e. e ≢ MetaError.Memory
        → named (codes "dimensions") (judged_dimensions (option_map (λ v. v.items) sizes)) ≡ Err e) }
{
    let Some(sizes) = sizes else {
        return Err(fault_of(alloc, "dimensions", Fault::Bad));
    };
    if sizes.len() == 0 {
        return Err(fault_of(alloc, "dimensions", Fault::Unsupported));
    }
    checked_shape(alloc, "dimensions", Some(sizes))
}
