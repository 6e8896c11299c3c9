// Chunks of many cells, whose bytes no line would hold.
ghost use Rattle.std.specs.Prelude.{◌≡◌, ◌<◌, false, length};
ghost use Rattle.chunk_forms.specs.Metadata.{is_local};

use case_lines::{Fault, bytes, items, member, number, told, zero};
use cells::Dense;
use chunk_forms::{Form, FormError, decode_form};
use serde_json::Value;
use std::alloc::{AllocError, Global};

// The number at a place of the chunk that has the given bytes, and then so many that count from 0 to 250 again and again.
pub(crate) fn one_of_many(alloc: Global, form: &Form, v: &Value) -> Result<String, Fault>
    requires { is_local form.now ≡ false }
{
    let place = small(v, "place")?;
    let more = small(v, "more")?;
    one(
        alloc,
        form,
        &counted(bytes(alloc, items(member(v, "bytes")?)?)?, more)?,
        place,
    )
}

fn small(v: &Value, name: &str) -> Result<u32, Fault> {
    u32::try_from(number(v, name)?).map_err(|_| Fault::Line)
}

fn counted(given: Vec<u8>, more: u32) -> Result<Vec<u8>, AllocError> {
    let mut bytes = given;
    bytes.reserve(more as usize)?;
    for i in 0..more {
        bytes.push((i % 251) as u8)?;
    }
    Ok(bytes)
}

fn one(alloc: Global, form: &Form, bytes: &[u8], place: u32) -> Result<String, Fault>
    requires { is_local form.now ≡ false }
{
    let dtype = form.dtype();
    let word = zero(dtype)?;
    picked(
        alloc,
        decode_form(alloc, form, dtype, form.chunk_shape(), word, Some(bytes)),
        place,
    )
}

fn picked(alloc: Global, answer: Result<Dense, FormError>, place: u32) -> Result<String, Fault> {
    match answer {
        Ok(dense) => number_at(alloc, &dense, place as usize),
        Err(FormError::Damaged { cause }) => told(alloc, &cause),
        Err(FormError::Memory) => Err(Fault::Memory),
    }
}

fn number_at(alloc: Global, dense: &Dense, place: usize) -> Result<String, Fault> {
    if place >= dense.count() {
        return Err(Fault::Line);
    }
    let number = dense.dtype().number(dense.get(place));
    Ok(format!(in alloc; "{number}")?)
}
