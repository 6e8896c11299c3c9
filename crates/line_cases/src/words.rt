// The words of a command line.
use case_lines::{Fault, items, member, number_or, said, text_of, told};
use json_forms::parse;
use run_words::read_words;
use serde_json::Value;
use std::alloc::Global;

/// What the words of a line ask for, by their Debug; `refused` where they ask for nothing.
pub(crate) fn answer(alloc: Global, line: &str) -> Result<String, Fault> {
    let v = parse(alloc, line.as_bytes())?;
    of_words(alloc, &v)
}

// Behind the words stand so many words `f` as `files` says.
fn of_words(alloc: Global, v: &Value) -> Result<String, Fault> {
    let words = words(
        alloc,
        items(member(v, "words")?)?,
        number_or(v, "files", 0)?,
    )?;
    read(alloc, &words)
}

fn words(alloc: Global, items: &[Value], files: u64) -> Result<Vec<String>, Fault> {
    let mut words = Vec::with_capacity(alloc, items.len())?;
    for item in items {
        push(alloc, &mut words, text_of(item)?)?;
    }
    for _ in 0..files {
        push(alloc, &mut words, "f")?;
    }
    Ok(words)
}

fn push(alloc: Global, words: &mut Vec<String>, word: &str) -> Result<(), Fault> {
    words.push(String::from_str(alloc, word)?)?;
    Ok(())
}

fn read(alloc: Global, words: &[String]) -> Result<String, Fault> {
    match read_words(words) {
        Ok(settings) => told(alloc, &settings),
        Err(_) => said(alloc, "refused"),
    }
}
