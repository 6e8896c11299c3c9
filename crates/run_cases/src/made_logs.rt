// Logs of a few kinds of answers.
use case_lines::{Fault, items, member};
use cells::{Dtype, Index, List, Sizes, Words};
use script_runner::{Answer, Body};
use serde_json::Value;
use std::alloc::Global;

/// Logs: lists of `"begun"`, `"refused"`, `{"commit":[..]}`, `{"values":[..]}` of int64 and `{"unsigned":[..]}` of uint64.
pub(crate) fn logs_of(alloc: Global, logs: &[Value]) -> Result<Vec<List<Answer>>, Fault> {
    let mut all = Vec::with_capacity(alloc, logs.len())?;
    for log in logs {
        all.push(log_of(alloc, items(log)?)?)?;
    }
    Ok(all)
}

fn log_of(alloc: Global, log: &[Value]) -> Result<List<Answer>, Fault> {
    Ok(List::wrap(answers(alloc, log)?))
}

fn answers(alloc: Global, log: &[Value]) -> Result<Vec<Answer>, Fault> {
    let mut all = Vec::with_capacity(alloc, log.len())?;
    for place in 0..log.len() {
        all.push(answer_of(alloc, place as u64, &log[place])?)?;
    }
    Ok(all)
}

fn answer_of(alloc: Global, line: u64, v: &Value) -> Result<Answer, Fault> {
    Ok(Answer {
        line,
        body: body_of(alloc, v)?,
    })
}

fn body_of(alloc: Global, v: &Value) -> Result<Body, Fault> {
    if let Some(word) = v.as_str() {
        return plain(word);
    }
    if let Some(events) = v.get("commit") {
        return committed(alloc, items(events)?);
    }
    if let Some(numbers) = v.get("values") {
        return values(alloc, Dtype::I64, items(numbers)?);
    }
    values(alloc, Dtype::U64, items(member(v, "unsigned")?)?)
}

fn plain(word: &str) -> Result<Body, Fault> {
    match word {
        "begun" => Ok(Body::Begun),
        "refused" => Ok(Body::NoTransaction),
        _ => Err(Fault::Line),
    }
}

fn committed(alloc: Global, numbers: &[Value]) -> Result<Body, Fault> {
    Ok(Body::Committed {
        events: List::wrap(words_of(alloc, numbers)?),
    })
}

// Words, as a read of so many cells answers them.
fn values(alloc: Global, dtype: Dtype, numbers: &[Value]) -> Result<Body, Fault> {
    let words = Words::wrap(words_of(alloc, numbers)?);
    let size = words.items().len() as u64;
    Ok(Body::Values {
        origin: Index::wrap(vec![in alloc; 0]?),
        shape: Sizes::wrap(vec![in alloc; size]?),
        dtype,
        words,
    })
}

fn words_of(alloc: Global, numbers: &[Value]) -> Result<Vec<u64>, Fault> {
    let mut words = Vec::with_capacity(alloc, numbers.len())?;
    for number in numbers {
        words.push(word_of(number)?)?;
    }
    Ok(words)
}

fn word_of(v: &Value) -> Result<u64, Fault> {
    match v.as_u64() {
        Some(word) => Ok(word),
        None => Ok(v.as_i64().ok_or(Fault::Line)?.cast_unsigned()),
    }
}
