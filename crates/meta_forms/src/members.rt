// Members of a JSON object.
ghost use Rattle.std.specs.Prelude.{◌≡◌, option_map};
ghost use Rattle.serde_json.specs.View.{view};
ghost use Rattle.meta_forms.specs.Judged.{text_in, whole_at, is_there, is_null_at, is_object_at, list_len, list_len_at};

use json_forms::{list_items, whole_number};
use serde_json::Value;

/// The text of a member.
pub fn text_in<'v>(value: &'v Value, name: &str) -> Option<&'v str>
    ensures { option_map (λ text. text.now) result ≡ text_in name.now (view value.now) }
{
    value.get(name)?.as_str()
}

/// The whole number of a member.
pub fn whole_at(value: &Value, name: &str) -> Option<i128>
    ensures { result ≡ whole_at name.now (view value.now) }
{
    whole_number(value.get(name)?)
}

/// Whether there is such a member.
pub fn is_there(value: &Value, name: &str) -> bool
    ensures { result ≡ is_there name.now (view value.now) }
{
    value.get(name).is_some()
}

/// Whether a member is null.
pub fn is_null_at(value: &Value, name: &str) -> bool
    ensures { result ≡ is_null_at name.now (view value.now) }
{
    match value.get(name) {
        Some(member) => member.is_null(),
        None => false,
    }
}

/// Whether a member is an object.
pub fn is_object_at(value: &Value, name: &str) -> bool
    ensures { result ≡ is_object_at name.now (view value.now) }
{
    match value.get(name) {
        Some(member) => member.as_object().is_some(),
        None => false,
    }
}

/// How many items a member has that is a list.
pub fn list_len_at(value: &Value, name: &str) -> Option<usize>
    ensures { result ≡ list_len_at name.now (view value.now) }
{
    match value.get(name) {
        Some(member) => list_len(member),
        None => None,
    }
}

fn list_len(value: &Value) -> Option<usize>
    ensures { result ≡ list_len (view value.now) }
{
    match list_items(value) {
        Some(items) => Some(items.len()),
        None => None,
    }
}
