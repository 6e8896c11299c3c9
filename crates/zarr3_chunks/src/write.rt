// Metadata as JSON.
ghost use Rattle.std.specs.Prelude.{◌≡◌, [], ◌∷◌, Ok, IfOk, codes, map};
ghost use Rattle.serde_json.specs.Data.{string};
ghost use Rattle.serde_json.specs.View.{view};
ghost use Rattle.serde_json.specs.Written.{compact_text};
ghost use Rattle.chunk_elements.specs.Numbers.{number_of};
ghost use Rattle.meta_forms.specs.Lists.{list_of};
ghost use Rattle.meta_forms.specs.Numbers.{integer, natural};
ghost use Rattle.zarr3_chunks.specs.Described.{SpellsMetadata};
ghost use Rattle.zarr3_chunks.specs.Key.{separator as between};
ghost use Rattle.zarr3_chunks.specs.Read.{metadata_of};
ghost use Rattle.zarr3_chunks.specs.Written.{named, endian, metadata_data};

use crate::key::separator;
use crate::metadata::Zarr3Meta;
use chunk_elements::Dtype;
use meta_forms::{compact, list_from_u64s};
use serde_json::{Map, Value, put};
use std::alloc::{AllocError, Global};

/// The bytes of `zarr.json`: eight members as compact JSON, in byte order of their names.
///
/// Zarr version 3, "Array metadata".
///
/// # Errors
/// An allocation failed.
pub fn write_meta(alloc: Global, m: &Zarr3Meta) -> Result<Vec<u8>, AllocError>
    ensures text { IfOk result (λ bytes. bytes.items ≡ compact_text (metadata_data m.now)) }
    ensures spells { IfOk result (λ bytes. SpellsMetadata m.now bytes.items) }
    ensures reads_back { IfOk result (λ bytes. metadata_of bytes.items ≡ Ok m.now) }
{
    // A look at a field, by which the contract knows the rules of metadata.
    let _ = &m.shape;
    let value = metadata_value(alloc, m)?;
    compact(alloc, &value)
}

fn metadata_value(alloc: Global, m: &Zarr3Meta) -> Result<Value, AllocError>
    ensures { IfOk result (λ v. view v ≡ metadata_data m.now) }
{
    let mut members = Map::new(alloc);
    put(&mut members, alloc, "zarr_format", Value::from(3u64))?;
    put(
        &mut members,
        alloc,
        "shape",
        list_from_u64s(alloc, m.shape.items())?,
    )?;
    put(
        &mut members,
        alloc,
        "node_type",
        Value::try_from_str(alloc, "array")?,
    )?;
    put(
        &mut members,
        alloc,
        "fill_value",
        fill_value(m.dtype, m.fill),
    )?;
    put(
        &mut members,
        alloc,
        "data_type",
        Value::try_from_str(alloc, m.dtype.name())?,
    )?;
    put(&mut members, alloc, "codecs", codecs(alloc, m.big)?)?;
    put(
        &mut members,
        alloc,
        "chunk_key_encoding",
        key_encoding(alloc, m.dot)?,
    )?;
    put(
        &mut members,
        alloc,
        "chunk_grid",
        grid(alloc, m.chunks.items())?,
    )?;
    Ok(Value::Object(members))
}

fn fill_value(dtype: Dtype, fill: u64) -> Value
    ensures { view result ≡ integer (number_of dtype fill) }
{
    if dtype.is_signed() {
        Value::from(fill.cast_signed())
    } else {
        Value::from(fill)
    }
}

fn key_encoding(alloc: Global, dot: bool) -> Result<Value, AllocError>
    ensures { IfOk result (λ v. view v
        ≡ named (codes "default") (codes "separator") (string (between dot ∷ []))) }
{
    let text = Value::try_from_str(alloc, separator(dot))?;
    named(alloc, "default", "separator", text)
}

fn grid(alloc: Global, chunks: &[u64]) -> Result<Value, AllocError>
    ensures { IfOk result (λ v. view v
        ≡ named (codes "regular") (codes "chunk_shape") (list_of (map natural chunks.now))) }
{
    let sizes = list_from_u64s(alloc, chunks)?;
    named(alloc, "regular", "chunk_shape", sizes)
}

// The list of the one codec.
fn codecs(alloc: Global, big: bool) -> Result<Value, AllocError>
    ensures { IfOk result (λ v. view v
        ≡ list_of (named (codes "bytes") (codes "endian") (string (endian big)) ∷ [])) }
{
    let order = Value::try_from_str(alloc, endian(big))?;
    let codec = named(alloc, "bytes", "endian", order)?;
    let mut items = Vec::with_capacity(alloc, 1)?;
    items.push(codec)?;
    Ok(Value::Array(items))
}

fn endian(big: bool) -> &'static str
    ensures { result.now ≡ endian big }
{
    if big { "big" } else { "little" }
}

// An object of a name and a configuration of one member.
fn named(alloc: Global, name: &str, member: &str, value: Value) -> Result<Value, AllocError>
    ensures { IfOk result (λ v. view v ≡ named name.now member.now (view value)) }
{
    let mut configuration = Map::new(alloc);
    put(&mut configuration, alloc, member, value)?;
    let mut members = Map::new(alloc);
    put(
        &mut members,
        alloc,
        "name",
        Value::try_from_str(alloc, name)?,
    )?;
    put(
        &mut members,
        alloc,
        "configuration",
        Value::Object(configuration),
    )?;
    Ok(Value::Object(members))
}
