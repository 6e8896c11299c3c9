use crate::{grids, intervals, spec_building, spec_reading, steps, transforms};
use case_lines::{Fault, word};
use json_forms::parse;
use serde_json::Value;
use std::alloc::Global;

/// What the call of a line gives, as text.
pub(crate) fn answer(alloc: Global, line: &str) -> Result<String, Fault> {
    let v = parse(alloc, line.as_bytes())?;
    if let Some(call) = word(&v, "interval") {
        return intervals::answer(alloc, call, &v);
    }
    if let Some(call) = word(&v, "transform") {
        return transforms::answer(alloc, call, &v);
    }
    if let Some(call) = word(&v, "steps") {
        return steps::answer(alloc, call, &v);
    }
    if let Some(call) = word(&v, "grid") {
        return grids::answer(alloc, call, &v);
    }
    match v.get("spec") {
        Some(spec) => of_spec(alloc, spec, &v),
        None => Err(Fault::Line),
    }
}

// What is read of a Spec, or built over the arrays of its line.
fn of_spec(alloc: Global, spec: &Value, v: &Value) -> Result<String, Fault> {
    match v.get("arrays") {
        Some(arrays) => spec_building::built(alloc, spec, arrays),
        None => spec_reading::read(alloc, spec),
    }
}
