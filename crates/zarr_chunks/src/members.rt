// How the members of `.zarray` are judged, one by one.
ghost use Rattle.std.specs.Prelude.{◌≡◌, Some, IfOk, codes, false, is_some};
ghost use Rattle.std.specs.Option.{ForSome};
ghost use Rattle.serde_json.specs.View.{view};
ghost use Rattle.chunk_elements.specs.Bytes.{byte_count};
ghost use Rattle.chunk_elements.specs.Numbers.{IsWord};
ghost use Rattle.meta_forms.specs.Judged.{text_in, whole_at, is_there, is_null_at, is_object_at, list_len_at};
ghost use Rattle.zarr_chunks.specs.Read.{type_named, supported, judged_type, judged_compressor, filled, judged_fill, order_named, judged_order, judged_filters, separator_named, judged_separator};

use chunk_elements::{Dtype, Order};
use meta_forms::{
    Fault, is_null_at, is_object_at, is_there, judged_len, judged_word, list_len_at, text_in,
    whole_at,
};
use serde_json::Value;

/// The type of an element, and whether its highest byte stands first.
#[derive(Clone, Copy, Debug, PartialEq, Eq)]
pub struct ElementType {
    pub dtype: Dtype,
    pub big: bool,
}

// The type that a text names.
fn type_named(text: &str) -> Option<ElementType>
    ensures { result ≡ type_named text.now }
{
    match text {
        "|i1" => of_type(Dtype::I8, false),
        "<i1" => of_type(Dtype::I8, false),
        ">i1" => of_type(Dtype::I8, false),
        "|u1" => of_type(Dtype::U8, false),
        "<u1" => of_type(Dtype::U8, false),
        ">u1" => of_type(Dtype::U8, false),
        "<i2" => of_type(Dtype::I16, false),
        ">i2" => of_type(Dtype::I16, true),
        "<u2" => of_type(Dtype::U16, false),
        ">u2" => of_type(Dtype::U16, true),
        "<i4" => of_type(Dtype::I32, false),
        ">i4" => of_type(Dtype::I32, true),
        "<u4" => of_type(Dtype::U32, false),
        ">u4" => of_type(Dtype::U32, true),
        "<i8" => of_type(Dtype::I64, false),
        ">i8" => of_type(Dtype::I64, true),
        "<u8" => of_type(Dtype::U64, false),
        ">u8" => of_type(Dtype::U64, true),
        _ => None,
    }
}

fn of_type(dtype: Dtype, big: bool) -> Option<ElementType>
    ensures { result ≡ Some (record { dtype = dtype; big = big }) }
{
    Some(ElementType { dtype, big })
}

/// The type that the member `dtype` names.
///
/// Zarr version 2, "Data type encoding".
///
/// # Errors
/// `Unsupported` for another text or a list, else `Bad`.
pub fn judged_type(value: &Value) -> Result<ElementType, Fault>
    ensures value { result ≡ judged_type (text_in (codes "dtype") (view value.now))
        (is_some (list_len_at (codes "dtype") (view value.now))) }
    ensures one_byte { IfOk result (λ t. byte_count t.dtype ≡ 1 → t.big ≡ false) }
{
    match text_in(value, "dtype") {
        Some(text) => supported(type_named(text)),
        None => if list_len_at(value, "dtype").is_some() {
            Err(Fault::Unsupported)
        } else {
            Err(Fault::Bad)
        },
    }
}

fn supported(t: Option<ElementType>) -> Result<ElementType, Fault>
    ensures { result ≡ supported t }
{
    match t {
        Some(t) => Ok(t),
        None => Err(Fault::Unsupported),
    }
}

/// That the member `compressor` is null.
///
/// Zarr version 2, "Metadata".
///
/// # Errors
/// `Unsupported` for an object, else `Bad`.
pub fn judged_compressor(value: &Value) -> Result<(), Fault>
    ensures { result ≡ judged_compressor (is_null_at (codes "compressor") (view value.now))
        (is_object_at (codes "compressor") (view value.now)) }
{
    if is_null_at(value, "compressor") {
        return Ok(());
    }
    if is_object_at(value, "compressor") {
        Err(Fault::Unsupported)
    } else {
        Err(Fault::Bad)
    }
}

/// The word of the member `fill_value`, or none for null.
///
/// Zarr version 2, "Fill value encoding".
///
/// # Errors
/// `Bad` for anything but null and a whole number in the dtype's range.
pub fn judged_fill(dtype: Dtype, value: &Value) -> Result<Option<u64>, Fault>
    ensures value { result ≡ judged_fill dtype (is_null_at (codes "fill_value") (view value.now))
        (whole_at (codes "fill_value") (view value.now)) }
    ensures word { IfOk result (λ fill. ForSome fill (IsWord dtype)) }
{
    if is_null_at(value, "fill_value") {
        return Ok(None);
    }
    filled(dtype, judged_word(dtype, whole_at(value, "fill_value")))
}

fn filled(dtype: Dtype, word: Result<u64, Fault>) -> Result<Option<u64>, Fault>
    requires { IfOk word (λ w. IsWord dtype w) }
    ensures value { result ≡ filled word }
    ensures word { IfOk result (λ fill. ForSome fill (IsWord dtype)) }
{
    match word {
        Ok(word) => Ok(Some(word)),
        Err(fault) => Err(fault),
    }
}

/// The order of elements that the member `order` names.
///
/// Zarr version 2, "Metadata".
///
/// # Errors
/// `Bad` for anything but "C" and "F".
pub fn judged_order(value: &Value) -> Result<Order, Fault>
    ensures { result ≡ judged_order (text_in (codes "order") (view value.now)) }
{
    match text_in(value, "order") {
        Some(text) => order_named(text),
        None => Err(Fault::Bad),
    }
}

fn order_named(text: &str) -> Result<Order, Fault>
    ensures { result ≡ order_named text.now }
{
    match text {
        "C" => Ok(Order::C),
        "F" => Ok(Order::F),
        _ => Err(Fault::Bad),
    }
}

/// That the member `filters` is null or an empty list.
///
/// Zarr version 2, "Metadata".
///
/// # Errors
/// `Unsupported` for another list, else `Bad`.
pub fn judged_filters(value: &Value) -> Result<(), Fault>
    ensures { result ≡ judged_filters (is_null_at (codes "filters") (view value.now))
        (list_len_at (codes "filters") (view value.now)) }
{
    if is_null_at(value, "filters") {
        return Ok(());
    }
    judged_len(list_len_at(value, "filters"))
}

/// Whether the member `dimension_separator` puts "/" between indices, and not ".", which holds where it isn't there.
///
/// Zarr version 2, "Metadata".
///
/// # Errors
/// `Bad` for anything but "/" and ".".
pub fn judged_separator(value: &Value) -> Result<bool, Fault>
    ensures { result ≡ judged_separator (is_there (codes "dimension_separator") (view value.now))
        (text_in (codes "dimension_separator") (view value.now)) }
{
    match text_in(value, "dimension_separator") {
        Some(text) => separator_named(text),
        None => if is_there(value, "dimension_separator") {
            Err(Fault::Bad)
        } else {
            Ok(false)
        },
    }
}

fn separator_named(text: &str) -> Result<bool, Fault>
    ensures { result ≡ separator_named text.now }
{
    match text {
        "/" => Ok(true),
        "." => Ok(false),
        _ => Err(Fault::Bad),
    }
}
