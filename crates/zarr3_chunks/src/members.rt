// How the members of `zarr.json` are judged, one by one, and which others would have to be understood.
ghost use Rattle.std.specs.Prelude.{◌≡◌, ◌&&◌, Some, IfOk, codes, false, find, is_some, map, not, option_and_then, option_map, string_bytes, string_cmp};
ghost use Rattle.std.specs.BTreeMap.{IsOrdered, keys};
ghost use Rattle.std.specs.List.{list_all};
ghost use Rattle.serde_json.specs.Find.{get, as_bool};
ghost use Rattle.serde_json.specs.View.{view};
ghost use Rattle.chunk_elements.specs.Bytes.{byte_count};
ghost use Rattle.meta_forms.specs.Lists.{list_items};
ghost use Rattle.meta_forms.specs.Members.{is_among};
ghost use Rattle.meta_forms.specs.Judged.{text_in, is_there, is_object_at, list_len_at};
ghost use Rattle.zarr3_chunks.specs.Described.{known_members};
ghost use Rattle.zarr3_chunks.specs.Read.{judged_node, supported, judged_dtype, grid_sizes, judged_dot, dot_in, judged_keys, is_byte, unsaid, judged_endian, endian_in, sole_codec, are_named, judged_codecs, judged_transformers, says_no, is_passed, unread_member};

use chunk_elements::Dtype;
use meta_forms::{
    Fault, is_object_at, is_there, judged_len, list_items, list_len_at, sizes_at, text_in,
};
use serde_json::{Map, Value};
use std::alloc::{AllocError, Global};

/// That the member `node_type` is "array".
///
/// Zarr version 3, "Array metadata".
///
/// # Errors
/// `Unsupported` for "group", else `Bad`.
pub fn judged_node(value: &Value) -> Result<(), Fault>
    ensures { result ≡ judged_node (text_in (codes "node_type") (view value.now)) }
{
    match text_in(value, "node_type") {
        Some("array") => Ok(()),
        Some("group") => Err(Fault::Unsupported),
        _ => Err(Fault::Bad),
    }
}

/// The dtype that the member `data_type` names.
///
/// Zarr version 3, "Data types".
///
/// # Errors
/// `Unsupported` for another text or an object, else `Bad`.
pub fn judged_dtype(value: &Value) -> Result<Dtype, Fault>
    ensures { result ≡ judged_dtype (text_in (codes "data_type") (view value.now))
        (is_object_at (codes "data_type") (view value.now)) }
{
    match text_in(value, "data_type") {
        Some(text) => supported(Dtype::named(text)),
        None => if is_object_at(value, "data_type") {
            Err(Fault::Unsupported)
        } else {
            Err(Fault::Bad)
        },
    }
}

fn supported(dtype: Option<Dtype>) -> Result<Dtype, Fault>
    ensures { result ≡ supported dtype }
{
    match dtype {
        Some(dtype) => Ok(dtype),
        None => Err(Fault::Unsupported),
    }
}

/// The sizes of chunks in the configuration of a regular grid, where they are a list of sizes.
///
/// Zarr version 3, "Regular grids".
///
/// # Errors
/// An allocation failed.
pub fn grid_sizes(alloc: Global, grid: &Value) -> Result<Option<Vec<u64>>, AllocError>
    ensures { IfOk result (λ o. option_map (λ v. v.items) o ≡ grid_sizes (view grid.now)) }
{
    match grid.get("configuration") {
        Some(configuration) => sizes_at(alloc, configuration, "chunk_shape"),
        None => Ok(None),
    }
}

/// Whether the member `chunk_key_encoding` puts "." between indices, and not "/", which holds where it doesn't say.
///
/// Zarr version 3, "Chunk key encoding".
///
/// # Errors
/// `Unsupported` for another encoding, else `Bad`.
pub fn judged_keys(value: &Value) -> Result<bool, Fault>
    ensures { result ≡ judged_keys (get (codes "chunk_key_encoding") (view value.now)) }
{
    let Some(encoding) = value.get("chunk_key_encoding") else {
        return Err(Fault::Bad);
    };
    match text_in(encoding, "name") {
        Some("default") => dot_in(encoding),
        Some(_) => Err(Fault::Unsupported),
        None => Err(Fault::Bad),
    }
}

fn dot_in(encoding: &Value) -> Result<bool, Fault>
    ensures { result ≡ dot_in (get (codes "configuration") (view encoding.now)) }
{
    let Some(configuration) = encoding.get("configuration") else {
        return Ok(false);
    };
    if configuration.as_object().is_none() {
        return Err(Fault::Bad);
    }
    judged_dot(configuration)
}

fn judged_dot(configuration: &Value) -> Result<bool, Fault>
    ensures { result ≡ judged_dot (is_there (codes "separator") (view configuration.now))
        (text_in (codes "separator") (view configuration.now)) }
{
    match text_in(configuration, "separator") {
        Some("/") => Ok(false),
        Some(".") => Ok(true),
        Some(_) => Err(Fault::Bad),
        None => if is_there(configuration, "separator") {
            Err(Fault::Bad)
        } else {
            Ok(false)
        },
    }
}

/// Whether the highest byte of an element stands first, by the member `codecs`, which is the codec "bytes" alone.
///
/// Zarr version 3, "Codecs".
///
/// # Errors
/// `Unsupported` for another list of named codecs, else `Bad`.
pub fn judged_codecs(dtype: Dtype, value: &Value) -> Result<bool, Fault>
    ensures value { result ≡ judged_codecs dtype
        (option_and_then list_items (get (codes "codecs") (view value.now))) }
    ensures one_byte { IfOk result (λ big. byte_count dtype ≡ 1 → big ≡ false) }
{
    let Some(codecs) = items_at(value, "codecs") else {
        return Err(Fault::Bad);
    };
    if !are_named(codecs) {
        return Err(Fault::Bad);
    }
    sole_codec(dtype, codecs)
}

fn items_at<'v>(value: &'v Value, name: &str) -> Option<&'v [Value]>
    ensures { option_map (λ items. map view items.now) result
        ≡ option_and_then list_items (get name.now (view value.now)) }
{
    list_items(value.get(name)?)
}

fn are_named(codecs: &[Value]) -> bool
    ensures { result ≡ are_named (map view codecs.now) }
{
    all_named(codecs)
}

fn all_named(codecs: &[Value]) -> bool
    ensures { result ≡ list_all (λ codec. is_some (text_in (codes "name") (view codec))) codecs.now }
{
    codecs.iter().all(|codec| is_named(codec))
}

fn is_named(codec: &Value) -> bool
    ensures { result ≡ is_some (text_in (codes "name") (view codec.now)) }
{
    text_in(codec, "name").is_some()
}

fn sole_codec(dtype: Dtype, codecs: &[Value]) -> Result<bool, Fault>
    ensures value { result ≡ sole_codec dtype (map view codecs.now) }
    ensures one_byte { IfOk result (λ big. byte_count dtype ≡ 1 → big ≡ false) }
{
    let [codec] = codecs else {
        return Err(Fault::Unsupported);
    };
    match text_in(codec, "name") {
        Some("bytes") => endian_in(dtype, codec),
        Some(_) => Err(Fault::Unsupported),
        None => Err(Fault::Bad),
    }
}

fn endian_in(dtype: Dtype, codec: &Value) -> Result<bool, Fault>
    ensures value { result ≡ endian_in dtype (get (codes "configuration") (view codec.now)) }
    ensures one_byte { IfOk result (λ big. byte_count dtype ≡ 1 → big ≡ false) }
{
    let Some(configuration) = codec.get("configuration") else {
        return unsaid(dtype);
    };
    if configuration.as_object().is_none() {
        return Err(Fault::Bad);
    }
    judged_endian(dtype, configuration)
}

fn judged_endian(dtype: Dtype, configuration: &Value) -> Result<bool, Fault>
    ensures value { result ≡ judged_endian dtype (is_there (codes "endian") (view configuration.now))
        (text_in (codes "endian") (view configuration.now)) }
    ensures one_byte { IfOk result (λ big. byte_count dtype ≡ 1 → big ≡ false) }
{
    match text_in(configuration, "endian") {
        Some("little") => Ok(false),
        Some("big") => Ok(!is_byte(dtype)),
        Some(_) => Err(Fault::Bad),
        None => if is_there(configuration, "endian") {
            Err(Fault::Bad)
        } else {
            unsaid(dtype)
        },
    }
}

fn unsaid(dtype: Dtype) -> Result<bool, Fault>
    ensures value { result ≡ unsaid dtype }
    ensures one_byte { IfOk result (λ big. byte_count dtype ≡ 1 → big ≡ false) }
{
    if is_byte(dtype) {
        Ok(false)
    } else {
        Err(Fault::Bad)
    }
}

fn is_byte(dtype: Dtype) -> bool
    ensures { result ≡ is_byte dtype }
{
    dtype.byte_count() == 1
}

/// That the member `storage_transformers` isn't there or is an empty list.
///
/// Zarr version 3, "Storage transformers".
///
/// # Errors
/// `Unsupported` for another list, else `Bad`.
pub(crate) fn judged_transformers(value: &Value) -> Result<(), Fault>
    ensures { result ≡ judged_transformers (is_there (codes "storage_transformers") (view value.now))
        (list_len_at (codes "storage_transformers") (view value.now)) }
{
    if !is_there(value, "storage_transformers") {
        return Ok(());
    }
    judged_len(list_len_at(value, "storage_transformers"))
}

/// The least name of a member that isn't known and would have to be understood.
pub(crate) fn unread_member(value: &Value) -> Option<&str>
    ensures { option_map (λ name. name.now) result ≡ unread_member (view value.now) }
{
    match value.as_object() {
        Some(members) => match first_unread(members, value) {
            Some(name) => Some(name.as_str()),
            None => None,
        },
        None => None,
    }
}

fn first_unread<'v>(members: &'v Map<String, Value>, value: &'v Value) -> Option<&'v String>
    ensures found { option_map (λ name. name.now) result ≡ find
        (λ name. not (is_among (string_bytes name) known_members) && not
        (is_passed (string_bytes name) (view value.now)))
        (keys members.now) }
    ensures ordered { IsOrdered string_cmp members.now }
{
    members.keys().find(|name| !is_known(name.as_str()) && !is_passed(name.as_str(), value))
}

fn is_known(name: &str) -> bool
    ensures { result ≡ is_among name.now known_members }
{
    match name {
        "zarr_format"
        | "node_type"
        | "shape"
        | "data_type"
        | "chunk_grid"
        | "chunk_key_encoding"
        | "fill_value"
        | "codecs"
        | "storage_transformers"
        | "attributes"
        | "dimension_names" => true,
        _ => false,
    }
}

fn is_passed(name: &str, value: &Value) -> bool
    ensures { result ≡ is_passed name.now (view value.now) }
{
    match value.get(name) {
        Some(member) => says_no(member),
        None => false,
    }
}

fn says_no(member: &Value) -> bool
    ensures { result ≡ says_no (option_and_then as_bool (get (codes "must_understand") (view member.now))) }
{
    match member.get("must_understand") {
        Some(flag) => flag.as_bool() == Some(false),
        None => false,
    }
}
