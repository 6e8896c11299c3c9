// Copies of metadata and forms.
ghost use Rattle.std.specs.Prelude.{◌≡◌, IfOk};

use crate::form::Form;
use n5_blocks::N5Meta;
use std::alloc::{AllocError, Global};
use zarr_chunks::{Sizes, ZarrMeta};
use zarr3_chunks::Zarr3Meta;

impl Form {
    /// The same form again.
    ///
    /// # Errors
    /// An allocation failed.
    pub fn copy(&self, alloc: Global) -> Result<Form, AllocError>
        ensures { IfOk result (λ form. form ≡ self.now) }
    {
        match self {
            Form::Zarr { meta } => zarr_form(alloc, meta),
            Form::N5 { meta } => n5_form(alloc, meta),
            Form::Zarr3 { meta } => zarr3_form(alloc, meta),
            Form::Local => Ok(Form::Local),
        }
    }
}

fn zarr_form(alloc: Global, m: &ZarrMeta) -> Result<Form, AllocError>
    ensures { IfOk result (λ form. form ≡ Form.Zarr m.now) }
{
    let shape = copied(alloc, m.shape.items())?;
    let chunks = copied(alloc, m.chunks.items())?;
    Ok(Form::Zarr {
        meta: ZarrMeta {
            shape,
            chunks,
            dtype: m.dtype,
            big: m.big,
            fill: m.fill,
            order: m.order,
            slash: m.slash,
        },
    })
}

fn n5_form(alloc: Global, m: &N5Meta) -> Result<Form, AllocError>
    ensures { IfOk result (λ form. form ≡ Form.N5 m.now) }
{
    let dimensions = copied(alloc, m.dimensions.items())?;
    let block = copied(alloc, m.block.items())?;
    Ok(Form::N5 {
        meta: N5Meta {
            dimensions,
            block,
            dtype: m.dtype,
        },
    })
}

fn zarr3_form(alloc: Global, m: &Zarr3Meta) -> Result<Form, AllocError>
    ensures { IfOk result (λ form. form ≡ Form.Zarr3 m.now) }
{
    let shape = copied(alloc, m.shape.items())?;
    let chunks = copied(alloc, m.chunks.items())?;
    Ok(Form::Zarr3 {
        meta: Zarr3Meta {
            shape,
            chunks,
            dtype: m.dtype,
            big: m.big,
            fill: m.fill,
            dot: m.dot,
        },
    })
}

fn copied(alloc: Global, sizes: &[u64]) -> Result<Sizes, AllocError>
    ensures { IfOk result (λ copy. copy ≡ sizes.now) }
{
    Ok(Sizes::wrap(Vec::from_slice(alloc, sizes)?))
}
