// The members of a line, by their names.
use crate::fault::Fault;
use serde_json::Value;

/// The member of this name.
pub fn member<'v>(v: &'v Value, name: &str) -> Result<&'v Value, Fault> {
    v.get(name).ok_or(Fault::Line)
}

/// A text.
pub fn text_of(v: &Value) -> Result<&str, Fault> {
    v.as_str().ok_or(Fault::Line)
}

/// The text of a member.
pub fn text<'v>(v: &'v Value, name: &str) -> Result<&'v str, Fault> {
    text_of(member(v, name)?)
}

/// The text of a member, or none where there is no such member or it is no text.
pub fn word<'v>(v: &'v Value, name: &str) -> Option<&'v str> {
    v.get(name)?.as_str()
}

/// The items of a list.
pub fn items(v: &Value) -> Result<&[Value], Fault> {
    match v.as_array() {
        Some(items) => Ok(items.as_slice()),
        None => Err(Fault::Line),
    }
}

/// The items of a member, none where there is no such member.
pub fn items_if<'v>(v: &'v Value, name: &str) -> Result<&'v [Value], Fault> {
    match v.get(name) {
        Some(found) => items(found),
        None => Ok(&[]),
    }
}

/// The number of a member.
pub fn number(v: &Value, name: &str) -> Result<u64, Fault> {
    member(v, name)?.as_u64().ok_or(Fault::Line)
}

/// The number of a member, or another one where there is no such member.
pub fn number_or(v: &Value, name: &str, other: u64) -> Result<u64, Fault> {
    match v.get(name) {
        Some(found) => found.as_u64().ok_or(Fault::Line),
        None => Ok(other),
    }
}

/// The number of a member, which may be negative.
pub fn integer(v: &Value, name: &str) -> Result<i64, Fault> {
    member(v, name)?.as_i64().ok_or(Fault::Line)
}

/// Whether a member is true; it has to be there.
pub fn flag(v: &Value, name: &str) -> Result<bool, Fault> {
    member(v, name)?.as_bool().ok_or(Fault::Line)
}

/// Whether a member is there and true.
pub fn is_true(v: &Value, name: &str) -> bool {
    match v.get(name) {
        Some(found) => found.as_bool() == Some(true),
        None => false,
    }
}
