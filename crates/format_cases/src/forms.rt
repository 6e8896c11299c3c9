// Metadata, keys and chunks of the three formats.
ghost use Rattle.std.specs.Prelude.{◌≡◌, ◌<◌, IfOk, false, length};
ghost use Rattle.chunk_forms.specs.Metadata.{is_local};

use crate::encode::encoded;
use crate::large::one_of_many;
use case_lines::{Fault, bytes, items, member, said, sizes, text, told, word_of, zero};
use cells::Dense;
use chunk_forms::{Form, FormError, decode_form};
use meta_forms::MetaError;
use serde_json::Value;
use std::alloc::{AllocError, Global};

pub(crate) fn answer(alloc: Global, call: &str, v: &Value) -> Result<String, Fault> {
    match read(alloc, text(v, "of")?, text(v, "meta")?) {
        Ok(form) => of_form(alloc, call, &form, v),
        Err(Unread::Meta { cause }) => refused(alloc, &cause),
        Err(Unread::Line) => Err(Fault::Line),
    }
}

// Why no metadata was read.
#[derive(Drop)]
pub(crate) enum Unread {
    Meta { cause: MetaError },
    Line,
}

impl From<MetaError> for Unread {
    fn from(cause: MetaError) -> Unread {
        Unread::Meta { cause }
    }
}

pub(crate) fn read(alloc: Global, format: &str, meta: &str) -> Result<Form, Unread>
    ensures { IfOk result (λ form. is_local form ≡ false) }
{
    match format {
        "zarr" => Ok(Form::Zarr {
            meta: zarr_chunks::read_meta(alloc, meta.as_bytes())?,
        }),
        "n5" => Ok(Form::N5 {
            meta: n5_blocks::read_meta(alloc, meta.as_bytes())?,
        }),
        "zarr3" => Ok(Form::Zarr3 {
            meta: zarr3_chunks::read_meta(alloc, meta.as_bytes())?,
        }),
        _ => Err(Unread::Line),
    }
}

fn refused(alloc: Global, cause: &MetaError) -> Result<String, Fault> {
    match cause {
        MetaError::NotJson => said(alloc, "not json"),
        MetaError::BadMember { name } => {
            let name = name.items();
            Ok(format!(in alloc; "bad {name}")?)
        }
        MetaError::Unsupported { name } => {
            let name = name.items();
            Ok(format!(in alloc; "unsupported {name}")?)
        }
        MetaError::Memory => Err(Fault::Memory),
    }
}

fn of_form(alloc: Global, call: &str, form: &Form, v: &Value) -> Result<String, Fault>
    requires { is_local form.now ≡ false }
{
    match call {
        "meta" => written(alloc, form),
        "key" => key(alloc, form, &sizes(alloc, v, "chunk")?),
        "decode" => decoded(alloc, form, v),
        "decode many" => one_of_many(alloc, form, v),
        "encode" => encoded(alloc, form, v),
        _ => Err(Fault::Line),
    }
}

// The written metadata.
pub(crate) fn written(alloc: Global, form: &Form) -> Result<String, Fault> {
    let bytes = match form {
        Form::Zarr { meta } => zarr_chunks::write_meta(alloc, meta)?,
        Form::N5 { meta } => n5_blocks::write_meta(alloc, meta)?,
        Form::Zarr3 { meta } => zarr3_chunks::write_meta(alloc, meta)?,
        Form::Local => return Err(Fault::Line),
    };
    text_of(alloc, &bytes)
}

pub(crate) fn text_of(alloc: Global, bytes: &[u8]) -> Result<String, Fault> {
    match str::from_utf8(bytes) {
        Ok(text) => said(alloc, text),
        Err(_) => Err(Fault::Line),
    }
}

fn key(alloc: Global, form: &Form, chunk: &[u64]) -> Result<String, Fault> {
    if chunk.len() != form.shape().len() {
        return Err(Fault::Line);
    }
    match form {
        Form::Zarr { meta } => Ok(zarr_chunks::key_of(alloc, meta, chunk)?),
        Form::N5 { meta } => Ok(n5_blocks::key_of(alloc, meta, chunk)?),
        Form::Zarr3 { meta } => Ok(zarr3_chunks::key_of(alloc, meta, chunk)?),
        Form::Local => Err(Fault::Line),
    }
}

// The numbers of stored bytes, or of none.
fn decoded(alloc: Global, form: &Form, v: &Value) -> Result<String, Fault>
    requires { is_local form.now ≡ false }
{
    let given = member(v, "bytes")?;
    if given.is_null() {
        return filled(alloc, form, member(v, "fill")?);
    }
    stored(alloc, form, &bytes(alloc, items(given)?)?)
}

fn filled(alloc: Global, form: &Form, fill: &Value) -> Result<String, Fault>
    requires { is_local form.now ≡ false }
{
    let dtype = form.dtype();
    let word = word_of(dtype, fill)?;
    cells(
        alloc,
        decode_form(alloc, form, dtype, form.chunk_shape(), word, None),
    )
}

fn stored(alloc: Global, form: &Form, bytes: &[u8]) -> Result<String, Fault>
    requires { is_local form.now ≡ false }
{
    let dtype = form.dtype();
    let word = zero(dtype)?;
    cells(
        alloc,
        decode_form(alloc, form, dtype, form.chunk_shape(), word, Some(bytes)),
    )
}

fn cells(alloc: Global, answer: Result<Dense, FormError>) -> Result<String, Fault> {
    match answer {
        Ok(dense) => numbers(alloc, &dense),
        Err(FormError::Damaged { cause }) => told(alloc, &cause),
        Err(FormError::Memory) => Err(Fault::Memory),
    }
}

// The numbers of the cells, in C order.
fn numbers(alloc: Global, dense: &Dense) -> Result<String, Fault> {
    let mut text = String::new(alloc);
    for place in 0..dense.count() {
        put(&mut text, dense, place)?;
    }
    Ok(text)
}

fn put(text: &mut String, dense: &Dense, place: usize) -> Result<(), AllocError>
    requires { place < length dense.now.words }
{
    if place > 0 {
        text.push(' ')?;
    }
    let number = dense.dtype().number(dense.get(place));
    write!(text, "{number}")
}
