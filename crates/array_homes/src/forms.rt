// The metadata of an array that has its present shape, and its written form.
ghost use Rattle.std.specs.Prelude.{◌≡◌, IfOk, false, length};
ghost use Rattle.cells.specs.Shapes.{IsShape};
ghost use Rattle.history.specs.Metadata.{with_shape, metadata_text, SpellsMetadata, is_local};
ghost use Rattle.history.specs.Arrays.{form_of};
ghost use Rattle.array_homes.specs.Homes.{MayHaveShape};

use crate::looks::shape_of;
use cells::Sizes;
use history::{Form, Home};
use n5_blocks::N5Meta;
use std::alloc::{AllocError, Global};
use zarr_chunks::ZarrMeta;
use zarr3_chunks::Zarr3Meta;

/// How the chunks of an array are stored, with its metadata as it is while the array has this shape, in cells.
///
/// # Errors
/// An allocation failed.
pub fn form_of(alloc: Global, home: &Home, shape: &[u64]) -> Result<Form, AllocError>
    requires { MayHaveShape home.now shape.now }
    ensures { IfOk result (λ meta. meta ≡ with_shape (form_of home.now) shape.now) }
{
    match home {
        Home::Zarr { meta, .. } => zarr_form(alloc, meta, shape),
        Home::N5 { meta, .. } => n5_form(alloc, meta, shape),
        Home::Zarr3 { meta, .. } => zarr3_form(alloc, meta, shape),
        Home::Local { .. } => Ok(Form::Local),
    }
}

// The metadata with which the array was opened.
pub(crate) fn first_form(alloc: Global, home: &Home) -> Result<Form, AllocError>
    ensures { IfOk result (λ meta. meta ≡ form_of home.now) }
{
    form_of(alloc, home, shape_of(home))
}

fn zarr_form(alloc: Global, m: &ZarrMeta, sizes: &[u64]) -> Result<Form, AllocError>
    requires shape { IsShape sizes.now }
    requires rank { length sizes.now ≡ length m.now.chunks }
    ensures { IfOk result (λ meta. meta ≡ with_shape (Form.Zarr m.now) sizes.now) }
{
    let shape = copied(alloc, sizes)?;
    let chunks = copied(alloc, m.chunks.items())?;
    Ok(Form::Zarr {
        meta: ZarrMeta {
            shape,
            chunks,
            dtype: m.dtype,
            big: m.big,
            fill: m.fill,
            order: m.order,
            slash: m.slash,
        },
    })
}

fn n5_form(alloc: Global, m: &N5Meta, sizes: &[u64]) -> Result<Form, AllocError>
    requires shape { IsShape sizes.now }
    requires rank { length sizes.now ≡ length m.now.block }
    ensures { IfOk result (λ meta. meta ≡ with_shape (Form.N5 m.now) sizes.now) }
{
    let dimensions = copied(alloc, sizes)?;
    let block = copied(alloc, m.block.items())?;
    Ok(Form::N5 {
        meta: N5Meta {
            dimensions,
            block,
            dtype: m.dtype,
        },
    })
}

fn zarr3_form(alloc: Global, m: &Zarr3Meta, sizes: &[u64]) -> Result<Form, AllocError>
    requires shape { IsShape sizes.now }
    requires rank { length sizes.now ≡ length m.now.chunks }
    ensures { IfOk result (λ meta. meta ≡ with_shape (Form.Zarr3 m.now) sizes.now) }
{
    let shape = copied(alloc, sizes)?;
    let chunks = copied(alloc, m.chunks.items())?;
    Ok(Form::Zarr3 {
        meta: Zarr3Meta {
            shape,
            chunks,
            dtype: m.dtype,
            big: m.big,
            fill: m.fill,
            dot: m.dot,
        },
    })
}

pub(crate) fn copied(alloc: Global, sizes: &[u64]) -> Result<Sizes, AllocError>
    ensures { IfOk result (λ copy. copy ≡ sizes.now) }
{
    Ok(Sizes::wrap(Vec::from_slice(alloc, sizes)?))
}

/// The bytes of a stored array's metadata.
///
/// Zarr version 2, "Metadata"; Zarr version 3, "Array metadata"; N5, "attributes.json".
///
/// # Errors
/// An allocation failed.
pub fn written_form(alloc: Global, form: &Form) -> Result<Vec<u8>, AllocError>
    requires { is_local form.now ≡ false }
    ensures text { IfOk result (λ bytes. bytes.items ≡ metadata_text form.now) }
    ensures spells { IfOk result (λ bytes. SpellsMetadata form.now bytes.items) }
{
    match form {
        Form::Zarr { meta } => zarr_chunks::write_meta(alloc, meta),
        Form::N5 { meta } => n5_blocks::write_meta(alloc, meta),
        Form::Zarr3 { meta } => zarr3_chunks::write_meta(alloc, meta),
        Form::Local => unreachable!(),
    }
}
