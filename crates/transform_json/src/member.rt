// The members of an output map.
ghost use Rattle.std.specs.Prelude.{◌≡◌, ◌<◌, ◌||◌, IfSome, codes, find, map, not, option_map, option_and_then, string_bytes, string_cmp};
ghost use Rattle.std.specs.BTreeMap.{IsOrdered, keys};
ghost use Rattle.serde_json.specs.Find.{get};
ghost use Rattle.serde_json.specs.View.{view};
ghost use Rattle.transform_json.specs.Members.{has};
ghost use Rattle.transform_json.specs.Output.{i64_number, dim_number, range_end, range_of_items, range_of, is_good, faulty_member};

use crate::input::{has, is_text};
use index_intervals::INFINITY;
use json_forms::{list_items, whole_number};
use serde_json::{Map, Value};

/// The least and the greatest entry that are allowed.
#[derive(Clone, Copy)]
pub(crate) struct EntryRange {
    pub(crate) least: i128,
    pub(crate) greatest: i128,
}

/// The least member in byte order that isn't what it may be, by the rank and by whether there is a right index array.
pub(crate) fn faulty_member(value: &Value, rank: usize, indexed: bool) -> Option<&str>
    ensures { option_map (λ name. name.now) result ≡ faulty_member rank indexed (view value.now) }
{
    match value.as_object() {
        Some(members) => match first_faulty(members, value, rank, indexed) {
            Some(name) => Some(name.as_str()),
            None => None,
        },
        None => None,
    }
}

fn first_faulty<'v>(
    members: &'v Map<String, Value>,
    value: &Value,
    rank: usize,
    indexed: bool,
) -> Option<&'v String>
    ensures found { option_map (λ name. name.now) result
        ≡ find (λ name. not (is_good rank indexed (view value.now) (string_bytes name))) (keys members.now) }
    ensures ordered { IsOrdered string_cmp members.now }
{
    members
        .keys()
        .find(|name| !is_good(value, rank, indexed, name.as_str()))
}

fn is_good(value: &Value, rank: usize, indexed: bool, name: &str) -> bool
    ensures { result ≡ is_good rank indexed (view value.now) name.now }
{
    if name == "index_array" {
        return indexed;
    }
    if name == "index_array_bounds" {
        return has(value, "index_array") && range_at(value).is_some();
    }
    if name == "input_dimension" {
        return !has(value, "index_array") && dim_at(value, rank).is_some();
    }
    if name == "offset" {
        return number_in(value, "offset").is_some();
    }
    name == "stride" && is_strided(value) && number_in(value, "stride").is_some()
}

fn is_strided(value: &Value) -> bool
    ensures { result ≡ (has (view value.now) (codes "index_array") || has (view value.now) (codes "input_dimension")) }
{
    has(value, "index_array") || has(value, "input_dimension")
}

/// The least and the greatest entry that a member allows.
pub(crate) fn range_at(value: &Value) -> Option<EntryRange>
    ensures { result ≡ option_and_then range_of (get (codes "index_array_bounds") (view value.now)) }
{
    range_of_items(list_items(value.get("index_array_bounds")?)?)
}

fn range_of_items(items: &[Value]) -> Option<EntryRange>
    ensures { result ≡ range_of_items (map view items.now) }
{
    let [least, greatest] = items else {
        return None;
    };
    let least = range_end(least)?;
    let greatest = range_end(greatest)?;
    Some(EntryRange { least, greatest })
}

fn range_end(value: &Value) -> Option<i128>
    ensures { result ≡ range_end (view value.now) }
{
    if is_text(value, "-inf") {
        return Some(i128::from(-INFINITY));
    }
    if is_text(value, "+inf") {
        return Some(i128::from(INFINITY));
    }
    whole_number(value)
}

/// The dimension that a member names, below the rank.
pub(crate) fn dim_at(value: &Value, rank: usize) -> Option<u64>
    ensures value { result ≡ option_and_then (dim_number rank) (get (codes "input_dimension") (view value.now)) }
    ensures small { IfSome result (λ dim. dim < rank) }
{
    let dim = value.get("input_dimension")?.as_u64()?;
    if dim < rank as u64 { Some(dim) } else { None }
}

/// The number of 64 bits that a member is.
pub(crate) fn number_in(value: &Value, name: &str) -> Option<i64>
    ensures { result ≡ option_and_then i64_number (get name.now (view value.now)) }
{
    value.get(name)?.as_i64()
}
