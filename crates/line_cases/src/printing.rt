// An answer's text.
use answer_text::{Answer, Body, is_ok, render};
use case_lines::Fault;
use std::alloc::Global;
use std::str;

/// The text of an answer, with a word before it that tells whether it is Ok. Its LF is the line's own end.
pub(crate) fn printed(alloc: Global, line: u64, body: Body) -> Result<String, Fault> {
    let answer = Answer { line, body };
    of_answer(alloc, &answer)
}

fn of_answer(alloc: Global, answer: &Answer) -> Result<String, Fault> {
    let bytes = render(alloc, answer)?;
    behind_word(alloc, is_ok(answer), &bytes)
}

fn behind_word(alloc: Global, ok: bool, bytes: &[u8]) -> Result<String, Fault> {
    let Some((end, text)) = bytes.split_last() else {
        return Err(Fault::Line);
    };
    if *end != b'\n' {
        return Err(Fault::Line);
    }
    match str::from_utf8(text) {
        Ok(text) => with_word(alloc, ok, text),
        Err(_) => Err(Fault::Line),
    }
}

fn with_word(alloc: Global, ok: bool, text: &str) -> Result<String, Fault> {
    let word = if ok { "ok" } else { "not ok" };
    Ok(format!(in alloc; "{word} {text}")?)
}
