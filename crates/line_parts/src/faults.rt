// The members of a line that are at fault.
ghost use Rattle.std.specs.Prelude.{◌≡◌, Some, option_map, if◌then◌else◌};
ghost use Rattle.serde_json.specs.View.{view};
ghost use Rattle.json_forms.specs.Members.{lesser};
ghost use Rattle.line_parts.specs.Within.{first_fault};
ghost use Rattle.line_parts.specs.Parts.{name_at, earlier, unless_so, missing, no_name};

use crate::names::name_of;
use serde_json::Value;
use std::cmp::Ordering;

/// The name that a member is.
pub fn name_at<'v>(value: &'v Value, key: &str) -> Option<&'v str>
    ensures { option_map (λ s. s.now) result ≡ name_at key.now (view value.now) }
{
    name_of(value.get(key)?)
}

/// The member, where it fails its test.
pub fn unless_so(test: bool, key: &str) -> Option<&str>
    ensures { option_map (λ s. s.now) result ≡ unless_so test key.now }
{
    if test { None } else { Some(key) }
}

/// The member, where it is missing.
pub fn missing<'k>(value: &Value, key: &'k str) -> Option<&'k str>
    ensures { option_map (λ s. s.now) result ≡ missing key.now (view value.now) }
{
    unless_so(value.get(key).is_some(), key)
}

/// The member, where it is missing or no name.
pub fn no_name<'k>(value: &Value, key: &'k str) -> Option<&'k str>
    ensures { option_map (λ s. s.now) result ≡ no_name key.now (view value.now) }
{
    unless_so(name_at(value, key).is_some(), key)
}

/// The lesser of two names in byte order, as far as they are there.
pub fn earlier<'v>(one: Option<&'v str>, other: Option<&'v str>) -> Option<&'v str>
    ensures { option_map (λ s. s.now) result
        ≡ earlier (option_map (λ s. s.now) one.entry) (option_map (λ s. s.now) other.entry) }
{
    match one {
        Some(name) => Some(lesser(name, other)),
        None => other,
    }
}

fn lesser<'v>(name: &'v str, other: Option<&'v str>) -> &'v str
    ensures { result.now ≡ lesser name.now (option_map (λ s. s.now) other.entry) }
{
    match other {
        Some(other) => lesser_of(name, other),
        None => name,
    }
}

fn lesser_of<'v>(one: &'v str, other: &'v str) -> &'v str
    ensures { result.now ≡ lesser one.now (Some other.now) }
{
    match one.cmp(other) {
        Ordering::Less | Ordering::Equal => one,
        Ordering::Greater => other,
    }
}

/// The path of a fault within a member, or the member among the others that is at fault and comes before it.
pub fn first_fault<'v>(name: &str, other: Option<&'v str>, path: &'v str) -> &'v str
    ensures { result.now ≡ first_fault name.now (option_map (λ s. s.now) other.entry) path.now }
{
    match other {
        Some(other) => first_of(name, other, path),
        None => path,
    }
}

fn first_of<'v>(name: &str, other: &'v str, path: &'v str) -> &'v str
    ensures { result.now ≡ first_fault name.now (Some other.now) path.now }
{
    match other.cmp(name) {
        Ordering::Less => other,
        Ordering::Equal | Ordering::Greater => path,
    }
}
