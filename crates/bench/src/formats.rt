// Arrays of one chunk of 1,000,000 cells.
ghost use Rattle.std.specs.Prelude.{◌≡◌, IfSome, false};
ghost use Rattle.chunk_forms.specs.Metadata.{is_local};

use chunk_forms::Form;
use std::alloc::Global;

/// The form of an array by its name.
pub(crate) fn form_of(alloc: Global, format: &str) -> Option<Form>
    ensures { IfSome result (λ form. is_local form ≡ false) }
{
    match format {
        "n5" => n5(
            alloc,
            r#"{"dimensions":[1000,1000],"blockSize":[1000,1000],"dataType":"int32","compression":{"type":"raw"}}"#,
        ),
        "zarr3" => zarr3(
            alloc,
            r#"{"zarr_format":3,"node_type":"array","shape":[1000,1000],"data_type":"int32","chunk_grid":{"name":"regular","configuration":{"chunk_shape":[1000,1000]}},"chunk_key_encoding":{"name":"default"},"fill_value":0,"codecs":[{"name":"bytes","configuration":{"endian":"little"}}]}"#,
        ),
        _ => zarr(alloc, zarr_text(format)?),
    }
}

fn zarr_text(format: &str) -> Option<&'static str> {
    match format {
        "zarr_little" => Some(
            r#"{"zarr_format":2,"shape":[1000,1000],"chunks":[1000,1000],"dtype":"<i4","compressor":null,"fill_value":0,"order":"C","filters":null}"#,
        ),
        "zarr_big" => Some(
            r#"{"zarr_format":2,"shape":[1000,1000],"chunks":[1000,1000],"dtype":">i4","compressor":null,"fill_value":0,"order":"C","filters":null}"#,
        ),
        "zarr_f" => Some(
            r#"{"zarr_format":2,"shape":[1000,1000],"chunks":[1000,1000],"dtype":"<i4","compressor":null,"fill_value":0,"order":"F","filters":null}"#,
        ),
        "zarr_f_ones" => Some(
            r#"{"zarr_format":2,"shape":[1000,1000,1,1,1,1,1,1,1,1,1,1,1,1,1,1,1,1,1,1,1,1,1,1,1,1,1,1,1,1,1,1],"chunks":[1000,1000,1,1,1,1,1,1,1,1,1,1,1,1,1,1,1,1,1,1,1,1,1,1,1,1,1,1,1,1,1,1],"dtype":"<i4","compressor":null,"fill_value":0,"order":"F","filters":null}"#,
        ),
        _ => None,
    }
}

fn zarr(alloc: Global, text: &str) -> Option<Form>
    ensures { IfSome result (λ form. is_local form ≡ false) }
{
    match zarr_chunks::read_meta(alloc, text.as_bytes()) {
        Ok(meta) => Some(Form::Zarr { meta }),
        Err(_) => None,
    }
}

fn n5(alloc: Global, text: &str) -> Option<Form>
    ensures { IfSome result (λ form. is_local form ≡ false) }
{
    match n5_blocks::read_meta(alloc, text.as_bytes()) {
        Ok(meta) => Some(Form::N5 { meta }),
        Err(_) => None,
    }
}

fn zarr3(alloc: Global, text: &str) -> Option<Form>
    ensures { IfSome result (λ form. is_local form ≡ false) }
{
    match zarr3_chunks::read_meta(alloc, text.as_bytes()) {
        Ok(meta) => Some(Form::Zarr3 { meta }),
        Err(_) => None,
    }
}
