use crate::{runs, session_lines};
use case_lines::Fault;
use json_forms::parse;
use std::alloc::Global;
use std::sync::Wait;

/// What a line gives, as lines of text: its first word says whether calls of transactions are behind it, or lines of sessions.
pub(crate) fn answer<R: Wait>(rt: &R, alloc: Global, line: &str) -> Result<String, Fault> {
    match line.split_once(' ') {
        Some((kind, rest)) => of_kind(rt, alloc, kind, rest),
        None => Err(Fault::Line),
    }
}

fn of_kind<R: Wait>(rt: &R, alloc: Global, kind: &str, rest: &str) -> Result<String, Fault> {
    let v = parse(alloc, rest.as_bytes())?;
    match kind {
        "transactions" => runs::run(rt, alloc, &v),
        "sessions" => session_lines::run(rt, alloc, &v),
        _ => Err(Fault::Line),
    }
}
