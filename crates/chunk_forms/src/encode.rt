ghost use Rattle.std.specs.Prelude.{◌≡◌, ◌↔◌, ◌<◌, ℕ, None, EachIndex, IfOk, IfSome, IsTrue, false, length, slice_index};
ghost use Rattle.zarr_chunks.specs.Elements.{word_at};
ghost use Rattle.chunk_forms.specs.Grammar.{WritesChunk, MayWrite};
ghost use Rattle.chunk_forms.specs.Metadata.{chunk_shape_of, dtype_of, shape_of, is_local};

use crate::form::Form;
use std::alloc::{AllocError, Global};
use zarr_chunks::{Dense, List};

/// The bytes that are written for a chunk; `None` exactly where all numbers are the fill. A block of N5 is written only as
/// far as the array reaches.
///
/// # Errors
/// An allocation failed.
pub fn encode_form(
    alloc: Global,
    form: &Form,
    chunk: &[u64],
    fill: u64,
    d: &Dense,
) -> Result<Option<List<u8>>, AllocError>
    requires stored { is_local form.now ≡ false }
    requires dtype { d.now.dtype ≡ dtype_of form.now }
    requires shape { d.now.shape ≡ chunk_shape_of form.now }
    requires may { MayWrite form.now chunk.now (word_at d.now) }
    ensures absent { IfOk result (λ o. o ≡ None
        ↔ EachIndex d.now.words (λ k. slice_index d.now.words k ≡ fill)) }
    ensures written { IfOk result (λ o. IfSome o (λ bytes.
        WritesChunk form.now chunk.now (shape_of form.now) bytes (word_at d.now))) }
{
    if d.is_all(fill) {
        return Ok(None);
    }
    let bytes = encode_bytes(alloc, form, chunk, d)?;
    Ok(Some(List::wrap(bytes)))
}

fn encode_bytes(alloc: Global, form: &Form, chunk: &[u64], d: &Dense) -> Result<Vec<u8>, AllocError>
    requires stored { is_local form.now ≡ false }
    requires dtype { d.now.dtype ≡ dtype_of form.now }
    requires shape { d.now.shape ≡ chunk_shape_of form.now }
    requires may { MayWrite form.now chunk.now (word_at d.now) }
    ensures { IfOk result (λ bytes. WritesChunk form.now chunk.now (shape_of form.now) bytes.items (word_at d.now)) }
{
    match form {
        Form::Zarr { meta } => zarr_chunks::encode(alloc, meta, d),
        Form::N5 { meta } => n5_blocks::encode(alloc, meta, chunk, d),
        Form::Zarr3 { meta } => zarr3_chunks::encode(alloc, meta, d),
        Form::Local => unreachable!(),
    }
}
