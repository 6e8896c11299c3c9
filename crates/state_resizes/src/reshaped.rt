// Metadata with another shape.
ghost use Rattle.std.specs.Prelude.{◌≡◌, length};
ghost use Rattle.cells.specs.Shapes.{IsShape};
ghost use Rattle.chunk_forms.specs.Metadata.{chunk_shape_of, with_shape};

use cells::Sizes;
use chunk_forms::Form;
use n5_blocks::N5Meta;
use zarr_chunks::ZarrMeta;
use zarr3_chunks::Zarr3Meta;

/// The metadata of an array once it has another shape, in cells.
pub(crate) fn reshaped(form: Form, shape: Sizes) -> Form
    requires shape { IsShape shape }
    requires rank { length shape ≡ length (chunk_shape_of form) }
    ensures { result ≡ with_shape form shape }
{
    match form {
        Form::Zarr { meta } => Form::Zarr {
            meta: zarr_reshaped(meta, shape),
        },
        Form::N5 { meta } => Form::N5 {
            meta: n5_reshaped(meta, shape),
        },
        Form::Zarr3 { meta } => Form::Zarr3 {
            meta: zarr3_reshaped(meta, shape),
        },
        Form::Local => Form::Local,
    }
}

fn zarr_reshaped(meta: ZarrMeta, shape: Sizes) -> ZarrMeta
    requires shape { IsShape shape }
    requires rank { length shape ≡ length meta.chunks }
    ensures { result ≡ record meta { shape = shape } }
{
    let ZarrMeta {
        shape: _,
        chunks,
        dtype,
        big,
        fill,
        order,
        slash,
    } = meta;
    ZarrMeta {
        shape,
        chunks,
        dtype,
        big,
        fill,
        order,
        slash,
    }
}

fn n5_reshaped(meta: N5Meta, shape: Sizes) -> N5Meta
    requires shape { IsShape shape }
    requires rank { length shape ≡ length meta.block }
    ensures { result ≡ record meta { dimensions = shape } }
{
    let N5Meta {
        dimensions: _,
        block,
        dtype,
    } = meta;
    N5Meta {
        dimensions: shape,
        block,
        dtype,
    }
}

fn zarr3_reshaped(meta: Zarr3Meta, shape: Sizes) -> Zarr3Meta
    requires shape { IsShape shape }
    requires rank { length shape ≡ length meta.chunks }
    ensures { result ≡ record meta { shape = shape } }
{
    let Zarr3Meta {
        shape: _,
        chunks,
        dtype,
        big,
        fill,
        dot,
    } = meta;
    Zarr3Meta {
        shape,
        chunks,
        dtype,
        big,
        fill,
        dot,
    }
}
