// Whose call it is.
use case_lines::{Fault, number_or};
use serde_json::Value;

// A session's number, 0 where the line has none.
pub(crate) fn owner(v: &Value) -> Result<u32, Fault> {
    u32::try_from(number_or(v, "owner", 0)?).map_err(|_| Fault::Line)
}
