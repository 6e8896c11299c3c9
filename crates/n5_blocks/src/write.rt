// Metadata as JSON.
ghost use Rattle.std.specs.Prelude.{◌≡◌, Ok, IfOk};
ghost use Rattle.serde_json.specs.View.{view};
ghost use Rattle.serde_json.specs.Written.{compact_text};
ghost use Rattle.n5_blocks.specs.Described.{SpellsMetadata};
ghost use Rattle.n5_blocks.specs.Read.{metadata_of};
ghost use Rattle.n5_blocks.specs.Written.{raw, metadata_data};

use crate::metadata::N5Meta;
use meta_forms::{compact, list_from_u64s};
use serde_json::{Map, Value, put};
use std::alloc::{AllocError, Global};

/// The bytes of `attributes.json`: the four members as compact JSON, in byte order of their names. The compression is
/// "raw".
///
/// N5, "attributes.json".
///
/// # Errors
/// An allocation failed.
pub fn write_meta(alloc: Global, m: &N5Meta) -> Result<Vec<u8>, AllocError>
    ensures text { IfOk result (λ bytes. bytes.items ≡ compact_text (metadata_data m.now)) }
    ensures spells { IfOk result (λ bytes. SpellsMetadata m.now bytes.items) }
    ensures reads_back { IfOk result (λ bytes. metadata_of bytes.items ≡ Ok m.now) }
{
    // A look at a field, by which the contract knows the rules of metadata.
    let _ = &m.block;
    let value = metadata_value(alloc, m)?;
    compact(alloc, &value)
}

fn metadata_value(alloc: Global, m: &N5Meta) -> Result<Value, AllocError>
    ensures { IfOk result (λ v. view v ≡ metadata_data m.now) }
{
    let mut members = Map::new(alloc);
    put(
        &mut members,
        alloc,
        "dimensions",
        list_from_u64s(alloc, m.dimensions.items())?,
    )?;
    put(
        &mut members,
        alloc,
        "dataType",
        Value::try_from_str(alloc, m.dtype.name())?,
    )?;
    put(&mut members, alloc, "compression", raw(alloc)?)?;
    put(
        &mut members,
        alloc,
        "blockSize",
        list_from_u64s(alloc, m.block.items())?,
    )?;
    Ok(Value::Object(members))
}

fn raw(alloc: Global) -> Result<Value, AllocError>
    ensures { IfOk result (λ v. view v ≡ raw) }
{
    let mut members = Map::new(alloc);
    put(
        &mut members,
        alloc,
        "type",
        Value::try_from_str(alloc, "raw")?,
    )?;
    Ok(Value::Object(members))
}
