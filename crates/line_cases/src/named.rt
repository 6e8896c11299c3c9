// Answers with one text.
use crate::args::{half, name, small};
use crate::printing::printed;
use answer_text::{Body, Why};
use case_lines::{Fault, number, text};
use cells::Name;
use serde_json::Value;
use std::alloc::Global;

/// An answer with a text, and the numbers beside it.
pub(crate) fn named(alloc: Global, line: u64, what: &str, v: &Value) -> Result<String, Fault> {
    match what {
        "Conflict" => conflict(alloc, line, v, number(v, "read")?, number(v, "now")?),
        "Shrunk" => shrunk(alloc, line, v, number(v, "now")?),
        "Damaged" => damaged(alloc, line, v, why(v)?),
        _ => texted(alloc, line, what, name(alloc, v, "text")?),
    }
}

fn texted(alloc: Global, line: u64, what: &str, text: Name) -> Result<String, Fault> {
    match what {
        "BadLine" => printed(alloc, line, Body::BadLine { text }),
        "Unsupported" => printed(alloc, line, Body::Unsupported { path: text }),
        _ => printed(alloc, line, Body::UnknownName { name: text }),
    }
}

fn conflict(alloc: Global, line: u64, v: &Value, read: u64, now: u64) -> Result<String, Fault> {
    let key = name(alloc, v, "key")?;
    printed(alloc, line, Body::Conflict { key, read, now })
}

fn shrunk(alloc: Global, line: u64, v: &Value, now: u64) -> Result<String, Fault> {
    let key = name(alloc, v, "key")?;
    printed(alloc, line, Body::Shrunk { key, now })
}

fn damaged(alloc: Global, line: u64, v: &Value, why: Why) -> Result<String, Fault> {
    let key = name(alloc, v, "key")?;
    printed(alloc, line, Body::Damaged { key, why })
}

fn why(v: &Value) -> Result<Why, Fault> {
    match text(v, "why")? {
        "length" => Ok(Why::Length {
            have: number(v, "have")?,
            want: number(v, "want")?,
        }),
        "mode" => Ok(Why::Mode {
            have: half(v, "have")?,
        }),
        "rank" => Ok(Why::Rank {
            have: half(v, "have")?,
        }),
        "size" => Ok(Why::Size {
            dim: small(v, "dim")?,
            have: small(v, "have")?,
        }),
        _ => Err(Fault::Line),
    }
}
