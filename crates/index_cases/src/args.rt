// The arguments of a call by their places, and those that may be missing.
use case_lines::Fault;
use serde_json::Value;

// A number, or none where the line has no such member.
pub(crate) fn number_or_none(v: &Value, name: &str) -> Result<Option<i64>, Fault> {
    match v.get(name) {
        Some(found) => Ok(Some(found.as_i64().ok_or(Fault::Line)?)),
        None => Ok(None),
    }
}

pub(crate) fn number_at(v: &Value, place: usize) -> Result<i64, Fault> {
    v.get(place).ok_or(Fault::Line)?.as_i64().ok_or(Fault::Line)
}

pub(crate) fn flag_at(v: &Value, place: usize) -> Result<bool, Fault> {
    let found = v.get(place).ok_or(Fault::Line)?;
    found.as_bool().ok_or(Fault::Line)
}
