use crate::{forms, homes, json, opening, wants};
use case_lines::{Fault, word};
use json_forms::parse;
use std::alloc::Global;

/// What the call of a line gives, as text.
pub(crate) fn answer(alloc: Global, line: &str) -> Result<String, Fault> {
    let v = parse(alloc, line.as_bytes())?;
    if let Some(call) = word(&v, "form") {
        return forms::answer(alloc, call, &v);
    }
    if let Some(call) = word(&v, "want") {
        return wants::answer(alloc, call, &v);
    }
    if let Some(call) = word(&v, "home") {
        return homes::answer(alloc, call, &v);
    }
    if let Some(call) = word(&v, "opening") {
        return opening::answer(alloc, call, &v);
    }
    if let Some(call) = word(&v, "json") {
        return json::answer(alloc, call, &v);
    }
    Err(Fault::Line)
}
