// Keys and names of an array's chunks and metadata, and the array as it is opened.
ghost use Rattle.std.specs.Prelude.{◌≡◌, IfOk, IsTrue, true, length, map, max};
ghost use Rattle.cells.specs.Shapes.{IsChunkShape};
ghost use Rattle.history.specs.Arrays.{chunk_shape, is_local};

use crate::asking::want;
use crate::forms::{read, text_of};
use array_homes::{
    array_ref, chunk_key, chunk_shape, form_of, given_info, home_text, is_chunk_name, is_local,
    local_number, metadata_key, metadata_key_asked, mount_of, new_info, written_form,
};
use case_lines::{Fault, said, sizes, text, told, zero};
use cells::{Dense, Dtype, count_cells, is_chunk_shape, is_shape};
use chunk_forms::Form;
use history::ArrayInfo;
use serde_json::Value;
use std::alloc::{AllocError, Global};

pub(crate) fn answer(alloc: Global, call: &str, v: &Value) -> Result<String, Fault> {
    match call {
        "number" => told(alloc, &local_number(text(v, "key")?.as_bytes())),
        "asked" => asked(alloc, text(v, "mount")?, text(v, "path")?, v),
        _ => of_array(alloc, call, v),
    }
}

fn asked(alloc: Global, mount: &str, path: &str, v: &Value) -> Result<String, Fault> {
    let want = want(alloc, v)?;
    Ok(metadata_key_asked(alloc, mount, path, &want)?)
}

fn of_array(alloc: Global, call: &str, v: &Value) -> Result<String, Fault> {
    let info = info(alloc, v)?;
    of_info(alloc, call, &info, v)
}

// The array that lies at `m/p`, or one of the run.
pub(crate) fn info(alloc: Global, v: &Value) -> Result<ArrayInfo, Fault> {
    match text(v, "of")? {
        "local" => first(alloc, v),
        format => stored(alloc, format, text(v, "meta")?),
    }
}

fn stored(alloc: Global, format: &str, meta: &str) -> Result<ArrayInfo, Fault> {
    match read(alloc, format, meta) {
        Ok(form) => Ok(new_info(alloc, 7, "m", "p", form)?),
        Err(_) => Err(Fault::Line),
    }
}

fn first(alloc: Global, v: &Value) -> Result<ArrayInfo, Fault> {
    let shape = sizes(alloc, v, "first")?;
    local(alloc, &shape)
}

fn local(alloc: Global, shape: &[u64]) -> Result<ArrayInfo, Fault> {
    if shape.len() > 32 || count_cells(shape, 1 << 24).is_none() {
        return Err(Fault::Line);
    }
    let zero = zero(Dtype::U8)?;
    let start = Dense::filled(alloc, Dtype::U8, shape, zero)?;
    Ok(given_info(alloc, 7, start)?)
}

fn of_info(alloc: Global, call: &str, info: &ArrayInfo, v: &Value) -> Result<String, Fault> {
    match call {
        "text" => Ok(home_text(alloc, &info.home, 9)?),
        "mount" => told(alloc, &mount_of(&info.home)),
        "metadata" => metadata(alloc, info),
        "named" => told(alloc, &is_chunk_name(info, text(v, "name")?.as_bytes())),
        "opened" => told(alloc, &(info.number, info.fill, info.shape.items())),
        _ => with_sizes(alloc, call, info, v),
    }
}

fn with_sizes(alloc: Global, call: &str, info: &ArrayInfo, v: &Value) -> Result<String, Fault> {
    let sizes = sizes(alloc, v, "sizes")?;
    of_sizes(alloc, call, info, &sizes)
}

fn of_sizes(alloc: Global, call: &str, info: &ArrayInfo, sizes: &[u64]) -> Result<String, Fault> {
    match call {
        "key" => key(alloc, info, sizes),
        "form" => form(alloc, info, sizes),
        "reference" => reference(alloc, info, sizes),
        _ => Err(Fault::Line),
    }
}

fn metadata(alloc: Global, info: &ArrayInfo) -> Result<String, Fault> {
    match metadata_key(alloc, &info.home)? {
        Some(key) => Ok(key),
        None => said(alloc, "none"),
    }
}

// The rank of the array's chunks.
fn rank(alloc: Global, info: &ArrayInfo) -> Result<usize, AllocError>
    ensures { IfOk result (λ rank. rank ≡ length (chunk_shape info.now)) }
{
    let sizes = chunk_shape(alloc, info)?;
    Ok(sizes.items().len())
}

#[tactic(auto, using(array_homes::proofs::Laws::rank_in))]
fn key(alloc: Global, info: &ArrayInfo, chunk: &[u64]) -> Result<String, Fault> {
    if chunk.len() != rank(alloc, info)? {
        return Err(Fault::Line);
    }
    Ok(chunk_key(alloc, &info.home, 9, chunk)?)
}

// The metadata that is written while a stored array has this shape.
#[tactic(auto, using(array_homes::proofs::Laws::shape_in))]
fn form(alloc: Global, info: &ArrayInfo, shape: &[u64]) -> Result<String, Fault> {
    if shape.len() != rank(alloc, info)? || !is_shape(shape) {
        return Err(Fault::Line);
    }
    let form = form_of(alloc, &info.home, shape)?;
    written(alloc, &form)
}

pub(crate) fn written(alloc: Global, form: &Form) -> Result<String, Fault> {
    if form.is_local() {
        return said(alloc, "local");
    }
    let bytes = written_form(alloc, form)?;
    text_of(alloc, &bytes)
}

// How views name the array: its shape and its chunks' shape.
fn reference(alloc: Global, info: &ArrayInfo, shape: &[u64]) -> Result<String, Fault> {
    if !is_shape(shape) || !has_chunk(alloc, info, shape.len())? || !is_kept(info, shape) {
        return Err(Fault::Line);
    }
    let array = array_ref(alloc, info, shape)?;
    told(
        alloc,
        &(
            array.number,
            array.shape.items(),
            array.chunk.items(),
            array.local,
        ),
    )
}

// The array's chunks have a chunk's shape, of this rank.
fn has_chunk(alloc: Global, info: &ArrayInfo, rank: usize) -> Result<bool, AllocError>
    ensures { IfOk result (λ b. IsTrue b → IsChunkShape (chunk_shape info.now)
        × (length (chunk_shape info.now) ≡ rank)) }
{
    let sizes = chunk_shape(alloc, info)?;
    Ok(is_chunk_shape(sizes.items()) && sizes.items().len() == rank)
}

// An array of the run keeps its first shape.
fn is_kept(info: &ArrayInfo, shape: &[u64]) -> bool
    ensures { IsTrue result → is_local info.now.home ≡ true → chunk_shape info.now ≡ map (max 1) shape.now }
{
    !is_local(&info.home) || info.shape.items() == shape
}
