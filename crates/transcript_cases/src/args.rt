// The members of a case.
use crate::fault::Fault;
use serde_json::Value;

pub(crate) fn items(v: &Value) -> Result<&[Value], Fault> {
    match v.as_array() {
        Some(items) => Ok(items.as_slice()),
        None => Err(Fault::Line),
    }
}

pub(crate) fn items_at<'v>(v: &'v Value, name: &str) -> Result<&'v [Value], Fault> {
    items(v.get(name).ok_or(Fault::Line)?)
}

// A text, empty where the case has no such member.
pub(crate) fn text_or_none<'v>(v: &'v Value, name: &str) -> Result<&'v str, Fault> {
    match v.get(name) {
        Some(found) => found.as_str().ok_or(Fault::Line),
        None => Ok(""),
    }
}

// A number, another one where the case has no such member.
pub(crate) fn number_or(v: &Value, name: &str, other: u64) -> Result<u64, Fault> {
    match v.get(name) {
        Some(found) => found.as_u64().ok_or(Fault::Line),
        None => Ok(other),
    }
}
