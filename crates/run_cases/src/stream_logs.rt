// Logs of answers without members of their own.
use case_lines::{Fault, items, number_or, text_of};
use cells::List;
use script_runner::{Answer, Body};
use serde_json::Value;
use std::alloc::Global;

/// The logs of a line: lists of the words `begun`, `aborted`, `refused` and `memory`, each the answer of the line at its place. `more` puts so
/// many answers `begun` behind the first log.
pub(crate) fn logs_of(alloc: Global, v: &Value, logs: &Value) -> Result<Vec<List<Answer>>, Fault> {
    let more = number_or(v, "more", 0)?;
    let logs = items(logs)?;
    let mut all = Vec::with_capacity(alloc, logs.len())?;
    for place in 0..logs.len() {
        let count = if place == 0 { more } else { 0 };
        all.push(log_of(alloc, items(&logs[place])?, count)?)?;
    }
    Ok(all)
}

fn log_of(alloc: Global, words: &[Value], more: u64) -> Result<List<Answer>, Fault> {
    Ok(List::wrap(answers(alloc, words, more)?))
}

fn answers(alloc: Global, words: &[Value], more: u64) -> Result<Vec<Answer>, Fault> {
    let mut log = Vec::new(alloc);
    let mut line = 0u64;
    for word in words {
        line = line.wrapping_add(1);
        log.push(answer_of(line, text_of(word)?)?)?;
    }
    for _ in 0..more {
        line = line.wrapping_add(1);
        log.push(answer_of(line, "begun")?)?;
    }
    Ok(log)
}

fn answer_of(line: u64, word: &str) -> Result<Answer, Fault> {
    let body = match word {
        "begun" => Body::Begun,
        "aborted" => Body::Aborted,
        "refused" => Body::InTransaction,
        "memory" => Body::Memory,
        _ => return Err(Fault::Line),
    };
    Ok(Answer { line, body })
}
