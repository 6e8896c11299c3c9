use crate::transforms::at;
use case_lines::{Fault, member, told, transform_text};
use dim_expressions::{ApplyError, apply};
use index_transform::Transform;
use serde_json::Value;
use std::alloc::Global;
use step_forms::{StepsError, read_steps};
use transform_json::read_transform;

pub(crate) fn answer(alloc: Global, call: &str, v: &Value) -> Result<String, Fault> {
    let steps = member(v, "of")?;
    if call == "read" {
        return read(alloc, steps);
    }
    match read_transform(alloc, member(v, "t")?) {
        Ok(t) => over(alloc, call, &t, v),
        Err(e) => told(alloc, &e),
    }
}

fn read(alloc: Global, steps: &Value) -> Result<String, Fault> {
    match read_steps(alloc, steps) {
        Ok(steps) => told(alloc, &steps.items()),
        Err(e) => told(alloc, &e),
    }
}

fn over(alloc: Global, call: &str, t: &Transform, v: &Value) -> Result<String, Fault> {
    match call {
        "apply" => after(alloc, t, member(v, "of")?),
        "at" => value(alloc, t, member(v, "of")?, member(v, "index")?),
        _ => Err(Fault::Line),
    }
}

fn after(alloc: Global, t: &Transform, steps: &Value) -> Result<String, Fault> {
    match applied(alloc, t, steps) {
        Ok(Ok(t)) => transform_text(alloc, &t),
        Ok(Err(e)) => told(alloc, &e),
        Err(e) => told(alloc, &e),
    }
}

fn value(alloc: Global, t: &Transform, steps: &Value, index: &Value) -> Result<String, Fault> {
    match applied(alloc, t, steps) {
        Ok(Ok(t)) => at(alloc, &t, index),
        Ok(Err(_)) => Err(Fault::Line),
        Err(_) => Err(Fault::Line),
    }
}

// Apart, since the steps that `apply` takes are those that `read_steps` gave.
fn applied(
    alloc: Global,
    t: &Transform,
    steps: &Value,
) -> Result<Result<Transform, ApplyError>, StepsError> {
    let steps = read_steps(alloc, steps)?;
    Ok(apply(alloc, t, steps.items()))
}
