// What is asked: named members of metadata.
ghost use Rattle.std.specs.Prelude.{◌≡◌, ℕ, List, Some, IfOk};

use crate::forms::read;
use case_lines::{Fault, member, text};
use cells::Sizes;
use chunk_forms::{Form, Want};
use n5_blocks::{N5Meta, N5Want};
use serde_json::Value;
use std::alloc::{AllocError, Global};
use zarr_chunks::{ZarrMeta, ZarrWant};
use zarr3_chunks::{Zarr3Meta, Zarr3Want};

/// The members `members` of the metadata `asks`, in the format `of`.
pub(crate) fn want(alloc: Global, v: &Value) -> Result<Want, Fault> {
    match read(alloc, text(v, "of")?, text(v, "asks")?) {
        Ok(form) => want_of(alloc, &form, member(v, "members")?),
        Err(_) => Err(Fault::Line),
    }
}

fn want_of(alloc: Global, form: &Form, members: &Value) -> Result<Want, Fault> {
    match form {
        Form::Zarr { meta } => Ok(Want::Zarr {
            want: zarr_want(alloc, meta, members)?,
        }),
        Form::N5 { meta } => Ok(Want::N5 {
            want: n5_want(alloc, meta, members)?,
        }),
        Form::Zarr3 { meta } => Ok(Want::Zarr3 {
            want: zarr3_want(alloc, meta, members)?,
        }),
        Form::Local => Err(Fault::Line),
    }
}

fn zarr_want(alloc: Global, m: &ZarrMeta, members: &Value) -> Result<ZarrWant, AllocError> {
    let shape = asked(alloc, members, "shape", m.shape.items())?;
    let chunks = asked(alloc, members, "chunks", m.chunks.items())?;
    Ok(ZarrWant {
        shape,
        chunks,
        dtype: is_asked(members, "dtype").then_some(m.dtype),
        big: is_asked(members, "byte order").then_some(m.big),
        fill: is_asked(members, "fill_value").then_some(m.fill),
        order: is_asked(members, "order").then_some(m.order),
        slash: is_asked(members, "dimension_separator").then_some(m.slash),
    })
}

fn n5_want(alloc: Global, m: &N5Meta, members: &Value) -> Result<N5Want, AllocError> {
    let dimensions = asked(alloc, members, "dimensions", m.dimensions.items())?;
    let block = asked(alloc, members, "blockSize", m.block.items())?;
    Ok(N5Want {
        dimensions,
        block,
        dtype: is_asked(members, "dtype").then_some(m.dtype),
    })
}

fn zarr3_want(alloc: Global, m: &Zarr3Meta, members: &Value) -> Result<Zarr3Want, AllocError> {
    let shape = asked(alloc, members, "shape", m.shape.items())?;
    let chunks = asked(alloc, members, "chunk_grid", m.chunks.items())?;
    Ok(Zarr3Want {
        shape,
        chunks,
        dtype: is_asked(members, "dtype").then_some(m.dtype),
        big: is_asked(members, "codecs").then_some(m.big),
        fill: is_asked(members, "fill_value").then_some(m.fill),
        dot: is_asked(members, "chunk_key_encoding").then_some(m.dot),
    })
}

fn asked(
    alloc: Global,
    members: &Value,
    name: &str,
    sizes: &[u64],
) -> Result<Option<Sizes>, AllocError>
    ensures { IfOk result (λ o. (asked : List ℕ) → o ≡ Some asked → asked ≡ sizes.now) }
{
    if is_asked(members, name) {
        Ok(Some(Sizes::wrap(Vec::from_slice(alloc, sizes)?)))
    } else {
        Ok(None)
    }
}

fn is_asked(members: &Value, name: &str) -> bool {
    match members.as_array() {
        Some(items) => items.iter().any(|item| item.as_str() == Some(name)),
        None => false,
    }
}
