// Chunks written as bytes.
ghost use Rattle.std.specs.Prelude.{◌≡◌, IfOk, IsTrue, false};
ghost use Rattle.cells.specs.Elements.{word_at};
ghost use Rattle.chunk_forms.specs.Grammar.{MayWrite};
ghost use Rattle.chunk_forms.specs.Metadata.{chunk_shape_of, dtype_of, is_local};
ghost use Rattle.n5_blocks.specs.Block.{IsReached, IsZeroOutside};

use crate::writable::{is_reached, is_zero_outside};
use case_lines::{Fault, member, said, sizes, told, word_of};
use cells::Dense;
use chunk_forms::{Form, encode_form};
use n5_blocks::{N5Meta, cut_sizes};
use serde_json::Value;
use std::alloc::Global;

/// The bytes that are written for a chunk, or `absent`.
pub(crate) fn encoded(alloc: Global, form: &Form, v: &Value) -> Result<String, Fault>
    requires { is_local form.now ≡ false }
{
    let dense = dense(alloc, form, member(v, "numbers")?)?;
    written(alloc, form, &dense, v)
}

// A chunk of these numbers.
fn dense(alloc: Global, form: &Form, numbers: &Value) -> Result<Dense, Fault>
    ensures dtype { IfOk result (λ d. d.dtype ≡ dtype_of form.now) }
    ensures shape { IfOk result (λ d. d.shape ≡ chunk_shape_of form.now) }
{
    let items = numbers.as_array().ok_or(Fault::Line)?;
    let first = items.first().ok_or(Fault::Line)?;
    let dtype = form.dtype();
    let mut dense = Dense::filled(alloc, dtype, form.chunk_shape(), word_of(dtype, first)?)?;
    if items.len() != dense.count() {
        return Err(Fault::Line);
    }
    for place in 0..items.len() {
        let word = word_of(dtype, &items[place])?;
        dense.set(place, word);
    }
    Ok(dense)
}

fn written(alloc: Global, form: &Form, d: &Dense, v: &Value) -> Result<String, Fault>
    requires stored { is_local form.now ≡ false }
    requires dtype { d.now.dtype ≡ dtype_of form.now }
    requires shape { d.now.shape ≡ chunk_shape_of form.now }
{
    let chunk = sizes(alloc, v, "chunk")?;
    if !may_write(alloc, form, &chunk, d)? {
        return Err(Fault::Line);
    }
    let fill = word_of(form.dtype(), member(v, "fill")?)?;
    match encode_form(alloc, form, &chunk, fill, d)? {
        Some(bytes) => told(alloc, &bytes.items()),
        None => said(alloc, "absent"),
    }
}

fn may_write(alloc: Global, form: &Form, chunk: &[u64], d: &Dense) -> Result<bool, Fault>
    requires { d.now.shape ≡ chunk_shape_of form.now }
    ensures { IfOk result (λ b. IsTrue b → MayWrite form.now chunk.now (word_at d.now)) }
{
    match form {
        Form::N5 { meta } => may_write_block(alloc, meta, chunk, d),
        _ => Ok(true),
    }
}

fn may_write_block(alloc: Global, m: &N5Meta, chunk: &[u64], d: &Dense) -> Result<bool, Fault>
    requires { d.now.shape ≡ m.now.block }
    ensures { IfOk result (λ b. IsTrue b → IsReached m.now chunk.now × IsZeroOutside m.now chunk.now (word_at d.now)) }
{
    if !is_reached(m.block.items(), m.dimensions.items(), chunk) {
        return Ok(false);
    }
    let sizes = cut_sizes(alloc, m.block.items(), m.dimensions.items(), chunk)?;
    let words = d.to_words(alloc)?;
    Ok(is_zero_outside(alloc, d.shape(), sizes.as_slice(), &words)?)
}
