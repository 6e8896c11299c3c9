use crate::{casts, held, numbers, staging, views};
use case_lines::{Fault, word};
use json_forms::parse;
use std::alloc::Global;

/// What the call of a line gives, as text.
pub(crate) fn answer(alloc: Global, line: &str) -> Result<String, Fault> {
    let v = parse(alloc, line.as_bytes())?;
    if let Some(call) = word(&v, "number") {
        return numbers::answer(alloc, call, &v);
    }
    if let Some(call) = word(&v, "cast") {
        return casts::answer(alloc, call, &v);
    }
    if let Some(call) = word(&v, "held") {
        return held::answer(alloc, call, &v);
    }
    if let Some(call) = word(&v, "staged") {
        return staging::answer(alloc, call);
    }
    if let Some(call) = word(&v, "ask") {
        return views::answer(alloc, call, &v);
    }
    Err(Fault::Line)
}
