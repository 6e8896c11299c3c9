// Answers and their text.
use crate::causes::refused;
use crate::named::named;
use crate::opened::opened;
use crate::plain::{counted, plain, stepped};
use crate::refusals::{of_chunk, of_metadata, of_script};
use crate::shown::shown;
use answer_text::has_few_lists;
use case_lines::{Fault, number, said, sizes_of, text, told};
use json_forms::parse;
use serde_json::Value;
use std::alloc::Global;

/// The text of the answer of a line; `memory` where it finds none.
pub(crate) fn answer(alloc: Global, line: &str) -> Result<String, Fault> {
    match printed_of(alloc, line) {
        Ok(text) => Ok(text),
        Err(Fault::Line) => Err(Fault::Line),
        Err(Fault::Memory) => said(alloc, "memory"),
    }
}

fn printed_of(alloc: Global, line: &str) -> Result<String, Fault> {
    let v = parse(alloc, line.as_bytes())?;
    of_line(alloc, &v)
}

fn of_line(alloc: Global, v: &Value) -> Result<String, Fault> {
    match v.get("few") {
        Some(shape) => few(alloc, shape),
        None => numbered(alloc, number(v, "line")?, v),
    }
}

fn numbered(alloc: Global, line: u64, v: &Value) -> Result<String, Fault> {
    match v.get("script") {
        Some(_) => of_script(alloc, line, text(v, "script")?),
        None => of_answer(alloc, line, text(v, "answer")?, v),
    }
}

fn few(alloc: Global, shape: &Value) -> Result<String, Fault> {
    let shape = sizes_of(alloc, shape)?;
    told(alloc, &has_few_lists(&shape))
}

fn of_answer(alloc: Global, line: u64, what: &str, v: &Value) -> Result<String, Fault> {
    match what {
        "Begun" | "Aborted" | "InTransaction" | "NoTransaction" | "NotArray" | "Memory" => {
            plain(alloc, line, what)
        }
        "Staged" | "Resized" | "NotAtomic" | "TooManyChunks" => {
            counted(alloc, line, what, number(v, "number")?)
        }
        "BadStep" | "UnknownDim" | "RepeatedDim" | "Unbounded" | "TooMany" => {
            stepped(alloc, line, what, number(v, "number")?)
        }
        "BadLine" | "Unsupported" | "UnknownName" | "Conflict" | "Shrunk" | "Damaged" => {
            named(alloc, line, what, v)
        }
        "RefusedStep" | "RefusedView" | "RefusedJoin" | "RefusedSpec" => {
            refused(alloc, line, what, v)
        }
        "Viewed" | "Resolved" | "Values" | "OutOfRange" | "Uncovered" | "BadValues" => {
            shown(alloc, line, what, v)
        }
        "FoundMetadata" => of_metadata(alloc, line, v),
        "FoundChunk" => of_chunk(alloc, line, v),
        _ => opened(alloc, line, what, v),
    }
}
