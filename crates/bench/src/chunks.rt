// The calls that are timed.
ghost use Rattle.std.specs.Prelude.{◌≡◌, IfOk, false};
ghost use Rattle.chunk_forms.specs.Metadata.{chunk_shape_of, dtype_of, is_local};

use crate::formats::form_of;
use crate::writable::may_write;
use cells::{Dense, Dtype, conv};
use chunk_forms::{Form, decode_form, encode_form};
use std::alloc::{AllocError, Global};

// A chunk of many numbers.
fn numbers(alloc: Global, form: &Form) -> Result<Dense, AllocError>
    ensures dtype { IfOk result (λ d. d.dtype ≡ dtype_of form.now) }
    ensures shape { IfOk result (λ d. d.shape ≡ chunk_shape_of form.now) }
{
    let dtype = form.dtype();
    let mut dense = Dense::filled(alloc, dtype, form.chunk_shape(), conv(Dtype::U64, 0, dtype))?;
    for place in 0..dense.count() {
        let number = (place as u64).wrapping_mul(2_654_435_761);
        dense.set(place, conv(Dtype::U64, number, dtype));
    }
    Ok(dense)
}

// The bytes that are written for a chunk; none where it may not be written.
fn encoded(alloc: Global, form: &Form, d: &Dense) -> Result<Vec<u8>, AllocError>
    requires stored { is_local form.now ≡ false }
    requires dtype { d.now.dtype ≡ dtype_of form.now }
    requires shape { d.now.shape ≡ chunk_shape_of form.now }
{
    let chunk = vec![in alloc; 0u64; form.shape().len()]?;
    if !may_write(form, &chunk, d) {
        return Ok(Vec::new(alloc));
    }
    match encode_form(alloc, form, &chunk, 0, d)? {
        Some(bytes) => Ok(bytes.into_inner()),
        None => Ok(Vec::new(alloc)),
    }
}

fn decoded(alloc: Global, form: &Form, bytes: &[u8]) -> Result<u64, AllocError>
    requires { is_local form.now ≡ false }
{
    let dtype = form.dtype();
    let fill = conv(Dtype::U64, 0, dtype);
    match decode_form(alloc, form, dtype, form.chunk_shape(), fill, Some(bytes)) {
        Ok(dense) => Ok(last_word(&dense)),
        Err(_) => Err(AllocError),
    }
}

fn last_word(dense: &Dense) -> u64 {
    match dense.count() {
        0 => 0,
        count => dense.get(count - 1),
    }
}

fn last_byte(bytes: &[u8]) -> u64 {
    u64::from(bytes.last().copied().unwrap_or(0))
}

fn decode_times(alloc: Global, form: &Form, bytes: &[u8], times: u32) -> Result<u64, AllocError>
    requires { is_local form.now ≡ false }
{
    let mut sum = 0u64;
    for _ in 0..times {
        sum = sum.wrapping_add(decoded(alloc, form, bytes)?);
    }
    Ok(sum)
}

fn encode_times(alloc: Global, form: &Form, d: &Dense, times: u32) -> Result<u64, AllocError>
    requires stored { is_local form.now ≡ false }
    requires dtype { d.now.dtype ≡ dtype_of form.now }
    requires shape { d.now.shape ≡ chunk_shape_of form.now }
{
    let mut sum = 0u64;
    for _ in 0..times {
        sum = sum.wrapping_add(last_byte(&encoded(alloc, form, d)?));
    }
    Ok(sum)
}

fn copy_times(alloc: Global, bytes: &[u8], times: u32) -> Result<u64, AllocError> {
    let mut sum = 0u64;
    for _ in 0..times {
        sum = sum.wrapping_add(last_byte(&Vec::from_slice(alloc, bytes)?));
    }
    Ok(sum)
}

// What comes of an act on a chunk of a form.
fn act_on(
    alloc: Global,
    form: &Form,
    d: &Dense,
    act: &str,
    times: u32,
) -> Result<Option<u64>, AllocError>
    requires stored { is_local form.now ≡ false }
    requires dtype { d.now.dtype ≡ dtype_of form.now }
    requires shape { d.now.shape ≡ chunk_shape_of form.now }
{
    if act == "encode" {
        return Ok(Some(encode_times(alloc, form, d, times)?));
    }
    let bytes = encoded(alloc, form, d)?;
    match act {
        "decode" => Ok(Some(decode_times(alloc, form, &bytes, times)?)),
        "copy" => Ok(Some(copy_times(alloc, &bytes, times)?)),
        _ => Ok(None),
    }
}

fn on_form(alloc: Global, form: &Form, act: &str, times: u32) -> Result<Option<u64>, AllocError>
    requires { is_local form.now ≡ false }
{
    let dense = numbers(alloc, form)?;
    act_on(alloc, form, &dense, act, times)
}

/// What comes of an act on a chunk of a format, done so many times; none where there is no such format or act.
pub(crate) fn bench(
    alloc: Global,
    format: &str,
    act: &str,
    times: u32,
) -> Result<Option<u64>, AllocError> {
    match form_of(alloc, format) {
        Some(form) => on_form(alloc, &form, act, times),
        None => Ok(None),
    }
}
