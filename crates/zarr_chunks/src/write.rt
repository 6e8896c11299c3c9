// Metadata as JSON.
ghost use Rattle.std.specs.Prelude.{◌≡◌, [], ◌∷◌, Ok, IfOk};
ghost use Rattle.serde_json.specs.View.{view};
ghost use Rattle.serde_json.specs.Written.{compact_text};
ghost use Rattle.chunk_elements.specs.Numbers.{IsWord};
ghost use Rattle.zarr_chunks.specs.Described.{SpellsMetadata};
ghost use Rattle.zarr_chunks.specs.Key.{separator};
ghost use Rattle.zarr_chunks.specs.Read.{metadata_of};
ghost use Rattle.zarr_chunks.specs.Written.{dtype_text, fill_data, order_text, metadata_data};

use crate::key::separator;
use crate::metadata::ZarrMeta;
use chunk_elements::{Dtype, Order};
use meta_forms::{compact, list_from_u64s};
use serde_json::{Map, Value, put};
use std::alloc::{AllocError, Global};

/// The bytes of `.zarray`: the nine members as compact JSON, in byte order of their names. `compressor` and `filters` are
/// null, and "|" stands before a type of one byte.
///
/// Zarr version 2, "Metadata".
///
/// # Errors
/// An allocation failed.
pub fn write_meta(alloc: Global, m: &ZarrMeta) -> Result<Vec<u8>, AllocError>
    ensures text { IfOk result (λ bytes. bytes.items ≡ compact_text (metadata_data m.now)) }
    ensures spells { IfOk result (λ bytes. SpellsMetadata m.now bytes.items) }
    ensures reads_back { IfOk result (λ bytes. metadata_of bytes.items ≡ Ok m.now) }
{
    // A look at a field, by which the contract knows the rules of metadata.
    let _ = &m.shape;
    let value = metadata_value(alloc, m)?;
    compact(alloc, &value)
}

fn metadata_value(alloc: Global, m: &ZarrMeta) -> Result<Value, AllocError>
    ensures { IfOk result (λ v. view v ≡ metadata_data m.now) }
{
    let mut members = Map::new(alloc);
    put(&mut members, alloc, "zarr_format", Value::from(2u64))?;
    put(
        &mut members,
        alloc,
        "shape",
        list_from_u64s(alloc, m.shape.items())?,
    )?;
    put(
        &mut members,
        alloc,
        "order",
        Value::try_from_str(alloc, order_text(m.order))?,
    )?;
    put(&mut members, alloc, "filters", Value::Null)?;
    put(
        &mut members,
        alloc,
        "fill_value",
        fill_value(m.dtype, m.fill),
    )?;
    put(
        &mut members,
        alloc,
        "dtype",
        Value::try_from_str(alloc, dtype_text(m.dtype, m.big))?,
    )?;
    put(
        &mut members,
        alloc,
        "dimension_separator",
        Value::try_from_str(alloc, separator(m.slash))?,
    )?;
    put(&mut members, alloc, "compressor", Value::Null)?;
    put(
        &mut members,
        alloc,
        "chunks",
        list_from_u64s(alloc, m.chunks.items())?,
    )?;
    Ok(Value::Object(members))
}

fn order_text(order: Order) -> &'static str
    ensures { result.now ≡ order_text order }
{
    match order {
        Order::C => "C",
        Order::F => "F",
    }
}

fn dtype_text(dtype: Dtype, big: bool) -> &'static str
    ensures { result.now ≡ dtype_text dtype big }
{
    match dtype {
        Dtype::I8 => "|i1",
        Dtype::U8 => "|u1",
        Dtype::I16 => if big { ">i2" } else { "<i2" },
        Dtype::U16 => if big { ">u2" } else { "<u2" },
        Dtype::I32 => if big { ">i4" } else { "<i4" },
        Dtype::U32 => if big { ">u4" } else { "<u4" },
        Dtype::I64 => if big { ">i8" } else { "<i8" },
        Dtype::U64 => if big { ">u8" } else { "<u8" },
    }
}

fn fill_value(dtype: Dtype, fill: Option<u64>) -> Value
    ensures { view result ≡ fill_data dtype fill }
{
    match fill {
        None => Value::Null,
        Some(word) => {
            if dtype.is_signed() {
                Value::from(word.cast_signed())
            } else {
                Value::from(word)
            }
        }
    }
}
