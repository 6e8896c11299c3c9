ghost use Rattle.std.specs.Prelude.{◌≡◌, option_map, map, find, not, is_some, string_bytes, string_cmp};
ghost use Rattle.std.specs.BTreeMap.{IsOrdered, keys};
ghost use Rattle.std.specs.List.{list_all, list_any};
ghost use Rattle.std.specs.Str.{bytes_eq};
ghost use Rattle.serde_json.specs.Find.{get};
ghost use Rattle.serde_json.specs.View.{view};
ghost use Rattle.json_forms.specs.Members.{is_among, least_unknown, has_exactly};

use serde_json::{Map, Value};

fn is_among(name: &str, names: &[&str]) -> bool
    ensures { result ≡ list_any (λ n. bytes_eq n.now name.now) names.now }
{
    names.iter().any(|n| *n == name)
}

fn has_all(value: &Value, names: &[&str]) -> bool
    ensures { result ≡ list_all (λ n. is_some (get n.now (view value.now))) names.now }
{
    names.iter().all(|name| value.get(*name).is_some())
}

fn first_unknown<'v>(members: &'v Map<String, Value>, known: &[&str]) -> Option<&'v String>
    ensures found { option_map (λ name. name.now) result
        ≡ find (λ name. not (list_any (λ n. bytes_eq n.now (string_bytes name)) known.now)) (keys members.now) }
    ensures ordered { IsOrdered string_cmp members.now }
{
    members.keys().find(|name| !is_among(name.as_str(), known))
}

/// The name, least in byte order, of a member that isn't one of the known; `None` where there is none, or where the
/// value is no object.
pub fn least_unknown<'v>(value: &'v Value, known: &[&str]) -> Option<&'v str>
    ensures { option_map (λ name. name.now) result
        ≡ least_unknown (map (λ n. n.now) known.now) (view value.now) }
{
    match value.as_object() {
        Some(members) => match first_unknown(members, known) {
            Some(name) => Some(name.as_str()),
            None => None,
        },
        None => None,
    }
}

/// Whether the value is an object that has each of these members and no other.
pub fn has_exactly(value: &Value, names: &[&str]) -> bool
    ensures { result ≡ has_exactly (map (λ n. n.now) names.now) (view value.now) }
{
    if !value.is_object() {
        return false;
    }
    if least_unknown(value, names).is_some() {
        return false;
    }
    has_all(value, names)
}
