// Answers that tell why steps, transforms, Specs and joins are refused.
use crate::args::{name, numbers, small};
use crate::printing::printed;
use answer_text::Body;
use case_lines::{Fault, integer, text};
use cells::{List, Name};
use dim_changes::Cause;
use layer_join::JoinError;
use serde_json::Value;
use spec_open::BuildCause;
use std::alloc::Global;
use transform_composition::ComposeError;

/// An answer with a cause.
pub(crate) fn refused(alloc: Global, line: u64, what: &str, v: &Value) -> Result<String, Fault> {
    match what {
        "RefusedStep" => step(alloc, line, small(v, "step")?, step_cause(v)?),
        "RefusedView" => view(alloc, line, view_cause(v)?),
        "RefusedJoin" => join(alloc, line, join_cause(v)?),
        _ => spec(alloc, line, v, spec_cause(v)?),
    }
}

fn step(alloc: Global, line: u64, step: u32, cause: Cause) -> Result<String, Fault> {
    printed(alloc, line, Body::RefusedStep { step, cause })
}

fn view(alloc: Global, line: u64, cause: ComposeError) -> Result<String, Fault> {
    printed(alloc, line, Body::RefusedView { cause })
}

fn join(alloc: Global, line: u64, cause: JoinError) -> Result<String, Fault> {
    printed(alloc, line, Body::RefusedJoin { cause })
}

fn spec(alloc: Global, line: u64, v: &Value, cause: BuildCause) -> Result<String, Fault> {
    let events = numbers(alloc, v, "events")?;
    spec_with(alloc, line, v, cause, events)
}

fn spec_with(
    alloc: Global,
    line: u64,
    v: &Value,
    cause: BuildCause,
    events: List<u64>,
) -> Result<String, Fault> {
    match name(alloc, v, "path") {
        Ok(path) => spec_of(alloc, line, path, cause, events),
        Err(fault) => Err(fault),
    }
}

fn spec_of(
    alloc: Global,
    line: u64,
    path: Name,
    cause: BuildCause,
    events: List<u64>,
) -> Result<String, Fault> {
    let body = Body::RefusedSpec {
        path,
        cause,
        events,
    };
    printed(alloc, line, body)
}

fn step_cause(v: &Value) -> Result<Cause, Fault> {
    match text(v, "cause")? {
        "count" => Ok(Cause::Count),
        "rank" => Ok(Cause::Rank),
        "target" => Ok(Cause::Target),
        "label" => Ok(Cause::Label),
        "zero step" => Ok(Cause::ZeroStep),
        "unbounded" => Ok(Cause::Unbounded),
        "bad order" => Ok(Cause::BadOrder),
        "out of range" => Ok(Cause::OutOfRange {
            lo: integer(v, "lo")?,
            hi: integer(v, "hi")?,
        }),
        "index dim" => Ok(Cause::IndexDim),
        "overflow" => Ok(Cause::Overflow),
        "too large" => Ok(Cause::TooLarge),
        _ => Err(Fault::Line),
    }
}

fn view_cause(v: &Value) -> Result<ComposeError, Fault> {
    match text(v, "cause")? {
        "rank" => Ok(ComposeError::Rank),
        "overflow" => Ok(ComposeError::Overflow {
            output: small(v, "output")?,
        }),
        "outside" => Ok(ComposeError::Outside {
            output: small(v, "output")?,
        }),
        "too large" => Ok(ComposeError::TooLarge {
            output: small(v, "output")?,
        }),
        _ => Err(Fault::Line),
    }
}

fn spec_cause(v: &Value) -> Result<BuildCause, Fault> {
    match text(v, "cause")? {
        "layers" => Ok(BuildCause::Layers),
        _ => Ok(BuildCause::Transform {
            cause: view_cause(v)?,
        }),
    }
}

fn join_cause(v: &Value) -> Result<JoinError, Fault> {
    match text(v, "cause")? {
        "depth" => Ok(JoinError::Depth),
        "layers" => Ok(JoinError::Layers {
            layer: small(v, "layer")?,
        }),
        "axis" => Ok(JoinError::Axis),
        "rank" => Ok(JoinError::Rank),
        "unbounded" => Ok(JoinError::Unbounded {
            layer: small(v, "layer")?,
        }),
        "overflow" => Ok(JoinError::Overflow {
            layer: small(v, "layer")?,
        }),
        _ => Err(Fault::Line),
    }
}
