ghost use Rattle.std.specs.Prelude.{◌≡◌, ◌≢◌, ℕ, List, Some, None, Err, IfOk, IfErr, false, length, option_map};
ghost use Rattle.zarr_chunks.specs.Elements.{word_at};
ghost use Rattle.zarr_chunks.specs.Numbers.{IsWord};
ghost use Rattle.zarr_chunks.specs.Places.{IsInside};
ghost use Rattle.chunk_forms.specs.Grammar.{SpellsChunk};
ghost use Rattle.chunk_forms.specs.Metadata.{chunk_shape_of, dtype_of, is_local};
ghost use Rattle.chunk_forms.specs.Words.{chunk_fault, stored_fault, stored_word};
ghost use Rattle.chunk_forms.specs.declared.form.Damage.{Damage};
ghost use Rattle.chunk_forms.specs.declared.form.FormError.TheVariants as error;

use crate::damage::{of_n5, of_zarr};
use crate::form::{Form, FormError};
use std::alloc::Global;
use zarr_chunks::{Dense, Dtype};

/// The numbers of a stored chunk. Without bytes all cells are the fill.
///
/// # Errors
/// `Damaged` with the first thing wrong with the bytes, and `Memory` where an allocation failed.
pub fn decode_form(
    alloc: Global,
    form: &Form,
    dtype: Dtype,
    chunk_shape: &[u64],
    fill: u64,
    bytes: Option<&[u8]>,
) -> Result<Dense, FormError>
    requires stored { is_local form.now ≡ false }
    requires dtype { dtype ≡ dtype_of form.now }
    requires shape { chunk_shape.now ≡ chunk_shape_of form.now }
    requires fill { IsWord dtype fill }
    ensures dtype { IfOk result (λ d. d.dtype ≡ dtype) }
    ensures shape { IfOk result (λ d. d.shape ≡ chunk_shape.now) }
    ensures words { IfOk result (λ d. (index : List ℕ) → IsInside chunk_shape.now index
        → stored_word form.now fill (option_map (λ b. b.now) bytes.entry) index ≡ Some (word_at d index)) }
    ensures sound { IfOk result (λ d. stored_fault form.now (option_map (λ b. b.now) bytes.entry) ≡ None) }
    ensures causes { IfErr result (λ e. e ≢ error.Memory → (cause : Damage) × (e ≡ error.Damaged cause)
        × (stored_fault form.now (option_map (λ b. b.now) bytes.entry) ≡ Some cause)) }
{
    match bytes {
        Some(bytes) => decode_bytes(alloc, form, bytes),
        None => filled(alloc, form, dtype, fill),
    }
}

// A chunk of the fill.
fn filled(alloc: Global, form: &Form, dtype: Dtype, fill: u64) -> Result<Dense, FormError>
    requires fill { IsWord dtype fill }
    ensures dtype { IfOk result (λ d. d.dtype ≡ dtype) }
    ensures shape { IfOk result (λ d. d.shape ≡ chunk_shape_of form.now) }
    ensures words { IfOk result (λ d. (index : List ℕ) → IsInside (chunk_shape_of form.now) index
        → word_at d index ≡ fill) }
    ensures causes { IfErr result (λ e. e ≡ error.Memory) }
{
    match Dense::filled(alloc, dtype, form.chunk_shape(), fill) {
        Ok(cells) => Ok(cells),
        Err(_) => Err(FormError::Memory),
    }
}

fn decode_bytes(alloc: Global, form: &Form, bytes: &[u8]) -> Result<Dense, FormError>
    requires { is_local form.now ≡ false }
    ensures dtype { IfOk result (λ d. d.dtype ≡ dtype_of form.now) }
    ensures shape { IfOk result (λ d. d.shape ≡ chunk_shape_of form.now) }
    ensures spells { IfOk result (λ d. SpellsChunk form.now bytes.now (word_at d)) }
    ensures words { IfOk result (λ d. (index : List ℕ) → IsInside (chunk_shape_of form.now) index
        → stored_word form.now 0 (Some bytes.now) index ≡ Some (word_at d index)) }
    ensures sound { IfOk result (λ d. chunk_fault form.now bytes.now ≡ None) }
    ensures causes { IfErr result (λ e. e ≢ error.Memory → (cause : Damage) × (e ≡ error.Damaged cause)
        × (chunk_fault form.now bytes.now ≡ Some cause)) }
{
    match form {
        Form::Zarr { meta } => of_zarr(zarr_chunks::decode(alloc, meta, bytes)),
        Form::N5 { meta } => {
            // A look at a field, by which the contract knows the rules of metadata.
            let _ = &meta.block;
            of_n5(n5_blocks::decode(alloc, meta, bytes))
        }
        Form::Zarr3 { meta } => of_zarr(zarr3_chunks::decode(alloc, meta, bytes)),
        Form::Local => unreachable!(),
    }
}
