use crate::{answers, lines, words};
use case_lines::Fault;
use std::alloc::Global;

/// What a line gives, as text: its first word says what is behind it.
pub(crate) fn answer(alloc: Global, line: &str) -> Result<String, Fault> {
    match line.split_once(' ') {
        Some((kind, rest)) => of_kind(alloc, kind, rest),
        None => Err(Fault::Line),
    }
}

fn of_kind(alloc: Global, kind: &str, rest: &str) -> Result<String, Fault> {
    match kind {
        "line" => lines::answer(alloc, rest),
        "answer" => answers::answer(alloc, rest),
        "words" => words::answer(alloc, rest),
        _ => Err(Fault::Line),
    }
}
