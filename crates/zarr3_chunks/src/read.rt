// Metadata from JSON.
ghost use Rattle.std.specs.Prelude.{◌≡◌, ◌≢◌, Some, Ok, Err, IfOk, IfErr, OnOk, codes, false, length};
ghost use Rattle.serde_json.specs.Find.{get};
ghost use Rattle.serde_json.specs.View.{view};
ghost use Rattle.chunk_elements.specs.Shapes.{IsChunkShape};
ghost use Rattle.meta_forms.specs.Faults.{named};
ghost use Rattle.meta_forms.specs.Judged.{text_in};
ghost use Rattle.meta_forms.specs.declared.error.MetaError.{MetaError};
ghost use Rattle.zarr3_chunks.specs.Described.{SpellsMetadata};
ghost use Rattle.zarr3_chunks.specs.Read.{judged_node, judged_dtype, grid_sizes, judged_grid, judged_keys, judged_codecs, judged_transformers, unread_member, all_read, metadata_of_members, metadata_of_data, metadata_of};

use crate::members::{
    grid_sizes, judged_codecs, judged_dtype, judged_keys, judged_node, judged_transformers,
    unread_member,
};
use crate::metadata::Zarr3Meta;
use chunk_elements::Sizes;
use meta_forms::{
    Fault, MetaError, ParseError, checked_chunks, checked_shape, fault_of, judged_format,
    judged_word, named, parse, sizes_at, text_in, whole_at,
};
use serde_json::Value;
use std::alloc::Global;

/// The metadata that bytes are. Of a repeated member the last counts; `attributes` and `dimension_names` are passed over, and
/// so is a further member that is an object whose `must_understand` is false.
///
/// Zarr version 3, "Array metadata".
///
/// # Errors
/// `NotJson` where the bytes are no JSON object. Else the first member at fault, in the order `zarr_format`, `node_type`,
/// `shape`, `data_type`, `chunk_grid`, `chunk_key_encoding`, `fill_value`, `codecs`, `storage_transformers` and the others in
/// byte order: `Unsupported` for another whole number as format, a group, another text or an object as data type, another
/// name of a grid or of an encoding, another list of named codecs, a list of transformers, and any further member; `BadMember`
/// for any other wrong value, and for a missing member of the first eight. `Memory` where an allocation failed.
pub fn read_meta(alloc: Global, bytes: &[u8]) -> Result<Zarr3Meta, MetaError>
    ensures value { IfOk result (λ m. metadata_of bytes.now ≡ Ok m) }
    ensures spells { IfOk result (λ m. SpellsMetadata m bytes.now) }
    ensures causes { IfErr result (λ e. e ≢ MetaError.Memory → metadata_of bytes.now ≡ Err e) }
{
    match parse(alloc, bytes) {
        Ok(value) => metadata_of_value(alloc, &value),
        Err(ParseError::NotJson) => Err(MetaError::NotJson),
        Err(ParseError::Memory) => Err(MetaError::Memory),
    }
}

fn metadata_of_value(alloc: Global, value: &Value) -> Result<Zarr3Meta, MetaError>
    ensures value { IfOk result (λ m. metadata_of_data (Some (view value.now)) ≡ Ok m) }
    ensures causes { IfErr result (λ e. e ≢ MetaError.Memory → metadata_of_data (Some (view value.now)) ≡ Err e) }
{
    if value.as_object().is_none() {
        return Err(MetaError::NotJson);
    }
    metadata_of_members(alloc, value)
}

fn metadata_of_members(alloc: Global, value: &Value) -> Result<Zarr3Meta, MetaError>
    ensures value { IfOk result (λ m. metadata_of_members (view value.now) ≡ Ok m) }
    ensures causes { IfErr result (λ e. e ≢ MetaError.Memory → metadata_of_members (view value.now) ≡ Err e) }
{
    named(
        alloc,
        "zarr_format",
        judged_format(whole_at(value, "zarr_format"), 3),
    )?;
    named(alloc, "node_type", judged_node(value))?;
    let shape = checked_shape(alloc, "shape", sizes_at(alloc, value, "shape")?)?;
    let dtype = named(alloc, "data_type", judged_dtype(value))?;
    let chunks = checked_grid(alloc, shape.len(), value)?;
    let dot = named(alloc, "chunk_key_encoding", judged_keys(value))?;
    let fill = named(
        alloc,
        "fill_value",
        judged_word(dtype, whole_at(value, "fill_value")),
    )?;
    let big = named(alloc, "codecs", judged_codecs(dtype, value))?;
    named(alloc, "storage_transformers", judged_transformers(value))?;
    all_read(alloc, value)?;
    Ok(Zarr3Meta {
        shape: Sizes::wrap(shape),
        chunks: Sizes::wrap(chunks),
        dtype,
        big,
        fill,
        dot,
    })
}

fn checked_grid(alloc: Global, rank: usize, value: &Value) -> Result<Vec<u64>, MetaError>
    ensures value { IfOk result (λ v. named (codes "chunk_grid")
        (judged_grid rank (get (codes "chunk_grid") (view value.now))) ≡ Ok v.items) }
    ensures rules { IfOk result (λ v. IsChunkShape v.items) }
    ensures rank { IfOk result (λ v. length v.items ≡ rank) }
    ensures causes { IfErr result (λ e. e ≢ MetaError.Memory → named (codes "chunk_grid")
        (judged_grid rank (get (codes "chunk_grid") (view value.now))) ≡ Err e) }
{
    let Some(grid) = value.get("chunk_grid") else {
        return Err(fault_of(alloc, "chunk_grid", Fault::Bad));
    };
    match text_in(grid, "name") {
        Some("regular") => checked_chunks(alloc, "chunk_grid", rank, grid_sizes(alloc, grid)?),
        Some(_) => Err(fault_of(alloc, "chunk_grid", Fault::Unsupported)),
        None => Err(fault_of(alloc, "chunk_grid", Fault::Bad)),
    }
}

// Whether no further member would have to be understood.
fn all_read(alloc: Global, value: &Value) -> Result<(), MetaError>
    ensures value { OnOk result (all_read (unread_member (view value.now)) ≡ Ok tt) }
    ensures causes { IfErr result (λ e. e ≢ MetaError.Memory → all_read (unread_member (view value.now)) ≡ Err e) }
{
    match unread_member(value) {
        Some(name) => Err(fault_of(alloc, name, Fault::Unsupported)),
        None => Ok(()),
    }
}
