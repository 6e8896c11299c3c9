// Numbers of chunks.
ghost use Rattle.std.specs.Prelude.{◌≡◌, ◌≢◌, ℕ, List, Some, IfOk, IfErr, false};
ghost use Rattle.cells.specs.Elements.{word_at};
ghost use Rattle.cells.specs.Numbers.{IsWord};
ghost use Rattle.cells.specs.Places.{IsInside};
ghost use Rattle.history.specs.declared.Damage.{Damage as DamageOf};
ghost use Rattle.history.specs.declared.FormError.TheVariants as form_error;
ghost use Rattle.history.specs.Metadata as meta;
ghost use Rattle.history.specs.Words.{stored_word, stored_fault};

use bytes::Bytes;
use cells::Dense;
use history::{Form, FormError, decode_form};
use std::alloc::Global;

/// The numbers of a chunk that stored bytes are.
pub fn decode(alloc: Global, form: &Form, bytes: &Option<Bytes>) -> Result<Dense, FormError>
    requires stored { meta.is_local form.now ≡ false }
    requires fill { IsWord (meta.dtype_of form.now) (meta.fill_of form.now) }
    ensures dtype { IfOk result (λ d. d.dtype ≡ meta.dtype_of form.now) }
    ensures shape { IfOk result (λ d. d.shape ≡ meta.chunk_shape_of form.now) }
    ensures words { IfOk result (λ d. (index : List ℕ) → IsInside (meta.chunk_shape_of form.now) index
        → stored_word form.now (meta.fill_of form.now) bytes.now index ≡ Some (word_at d index)) }
    ensures causes { IfErr result (λ e. e ≢ form_error.Memory → (cause : DamageOf) × (e ≡ form_error.Damaged cause)
        × (stored_fault form.now bytes.now ≡ Some cause)) }
{
    match bytes {
        Some(bytes) => decode_form(
            alloc,
            form,
            form.dtype(),
            form.chunk_shape(),
            form.fill(),
            Some(bytes.as_slice()),
        ),
        None => decode_form(
            alloc,
            form,
            form.dtype(),
            form.chunk_shape(),
            form.fill(),
            None,
        ),
    }
}
