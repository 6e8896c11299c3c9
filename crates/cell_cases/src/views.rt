// A view by acts, and what is asked of it.
use crate::refused::Refused;
use crate::view_asking::asked;
use crate::view_building::built;
use case_lines::{Fault, items, member, told};
use serde_json::Value;
use std::alloc::Global;

/// What is asked of the view of a line, as text, or why the view is refused.
pub(crate) fn answer(alloc: Global, call: &str, v: &Value) -> Result<String, Fault> {
    match over(alloc, call, v) {
        Ok(text) => Ok(text),
        Err(Refused::Line) => Err(Fault::Line),
        Err(Refused::Memory) => Err(Fault::Memory),
        Err(refused) => told(alloc, &refused),
    }
}

fn over(alloc: Global, call: &str, v: &Value) -> Result<String, Refused> {
    let view = built(alloc, items(member(v, "view")?)?)?;
    asked(alloc, &view, call, v)
}
