// A `write` line, and the answer to a `read` of its numbers.
use answer_text::{Answer, Body, render};
use cells::{Dtype, Index, Sizes, Words};
use json_forms::u64_list;
use line_forms::{Command, read_command};
use serde_json::Value;
use std::alloc::{AllocError, Global};
use std::str;

/// What comes of an act, done so many times; none where there is no such act.
pub(crate) fn bench(
    alloc: Global,
    act: &str,
    line: &[u8],
    times: u32,
) -> Result<Option<String>, AllocError> {
    match act {
        "read" => Ok(Some(read(alloc, line, times)?)),
        "print" => Ok(Some(print(alloc, line, times)?)),
        _ => Ok(None),
    }
}

// How many numbers the line writes.
fn read(alloc: Global, line: &[u8], times: u32) -> Result<String, AllocError> {
    let mut numbers = 0;
    for _ in 0..times {
        numbers = numbers_in(alloc, line)?;
    }
    Ok(format!(in alloc; "{numbers} numbers")?)
}

fn numbers_in(alloc: Global, line: &[u8]) -> Result<usize, AllocError> {
    match read_command(alloc, line, &[]) {
        Ok(command) => Ok(length(&command)),
        Err(_) => Err(AllocError),
    }
}

fn length(command: &Command) -> usize {
    match command {
        Command::Write { values, .. } => items(values),
        _ => 0,
    }
}

fn items(values: &Value) -> usize {
    match values.as_array() {
        Some(items) => items.len(),
        None => 0,
    }
}

// The answer that tells the numbers that the line writes.
fn print(alloc: Global, line: &[u8], times: u32) -> Result<String, AllocError> {
    let words = words_in(alloc, line)?;
    let answer = answer(alloc, words)?;
    rendered(alloc, &answer, times)
}

fn words_in(alloc: Global, line: &[u8]) -> Result<Vec<u64>, AllocError> {
    match read_command(alloc, line, &[]) {
        Ok(command) => words(alloc, &command),
        Err(_) => Err(AllocError),
    }
}

fn words(alloc: Global, command: &Command) -> Result<Vec<u64>, AllocError> {
    match command {
        Command::Write { values, .. } => as_words(alloc, values),
        _ => Err(AllocError),
    }
}

fn as_words(alloc: Global, values: &Value) -> Result<Vec<u64>, AllocError> {
    match u64_list(alloc, values)? {
        Some(words) => Ok(words),
        None => Err(AllocError),
    }
}

fn answer(alloc: Global, words: Vec<u64>) -> Result<Answer, AllocError> {
    let origin = Vec::from_elem(alloc, 0i64, 1)?;
    let shape = Vec::from_elem(alloc, words.len() as u64, 1)?;
    Ok(of_parts(origin, shape, words))
}

fn of_parts(origin: Vec<i64>, shape: Vec<u64>, words: Vec<u64>) -> Answer {
    Answer {
        line: 1,
        body: Body::Values {
            origin: Index::wrap(origin),
            shape: Sizes::wrap(shape),
            dtype: Dtype::U32,
            words: Words::wrap(words),
        },
    }
}

fn rendered(alloc: Global, answer: &Answer, times: u32) -> Result<String, AllocError> {
    let mut length = 0;
    for _ in 0..times {
        length = rendered_length(alloc, answer)?;
    }
    let text = render(alloc, answer)?;
    told(alloc, &text, length)
}

fn rendered_length(alloc: Global, answer: &Answer) -> Result<usize, AllocError> {
    Ok(render(alloc, answer)?.len())
}

fn told(alloc: Global, text: &[u8], length: usize) -> Result<String, AllocError> {
    match str::from_utf8(text) {
        Ok(text) => Ok(format!(in alloc; "{length} bytes: {text}")?),
        Err(_) => Err(AllocError),
    }
}
