// How the members of `attributes.json` are judged, one by one.
ghost use Rattle.std.specs.Prelude.{◌≡◌, Some, codes, option_map};
ghost use Rattle.serde_json.specs.View.{view};
ghost use Rattle.meta_forms.specs.Judged.{text_in};
ghost use Rattle.n5_blocks.specs.Read.{supported, judged_dtype, judged_compression, compression_in};

use chunk_elements::Dtype;
use meta_forms::{Fault, text_in};
use serde_json::Value;

/// The dtype that the member `dataType` names.
///
/// N5, "attributes.json".
///
/// # Errors
/// `Unsupported` for another text, else `Bad`.
pub fn judged_dtype(value: &Value) -> Result<Dtype, Fault>
    ensures { result ≡ judged_dtype (text_in (codes "dataType") (view value.now)) }
{
    match text_in(value, "dataType") {
        Some(text) => supported(Dtype::named(text)),
        None => Err(Fault::Bad),
    }
}

fn supported(dtype: Option<Dtype>) -> Result<Dtype, Fault>
    ensures { result ≡ supported dtype }
{
    match dtype {
        Some(dtype) => Ok(dtype),
        None => Err(Fault::Unsupported),
    }
}

/// That the member `compression` is of the type "raw".
///
/// N5, "attributes.json".
///
/// # Errors
/// `Unsupported` for another type, else `Bad`.
pub fn judged_compression(value: &Value) -> Result<(), Fault>
    ensures { result ≡ judged_compression (compression_in (view value.now)) }
{
    match compression_in(value) {
        Some("raw") => Ok(()),
        Some(_) => Err(Fault::Unsupported),
        None => Err(Fault::Bad),
    }
}

fn compression_in(value: &Value) -> Option<&str>
    ensures { option_map (λ text. text.now) result ≡ compression_in (view value.now) }
{
    text_in(value.get("compression")?, "type")
}
