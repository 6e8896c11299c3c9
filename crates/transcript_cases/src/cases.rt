use crate::args::{items, items_at, text_or_none};
use crate::checks::checked;
use crate::fault::Fault;
use crate::files::of_files;
use crate::judging::judged;
use crate::stores::of_store;
use crate::texts::{bytes_of, scripts_of};
use crate::versions::of_chunk;
use cells::List;
use json_forms::parse;
use serde_json::Value;
use std::alloc::{AllocError, Global};

/// What the first steps of a check tell of a line's transcript; `no case` where it has none.
pub(crate) fn answer(alloc: Global, line: &str) -> Result<String, AllocError> {
    match told(alloc, line) {
        Ok(text) => Ok(text),
        Err(Fault::Line) => String::from_str(alloc, "no case"),
        Err(Fault::Memory) => Err(AllocError),
    }
}

fn told(alloc: Global, line: &str) -> Result<String, Fault> {
    let v = parse(alloc, line.as_bytes())?;
    of_value(alloc, &v)
}

fn of_value(alloc: Global, v: &Value) -> Result<String, Fault> {
    match v.get("chunk") {
        Some(chunk) => of_chunk(alloc, chunk),
        None => of_steps(alloc, v),
    }
}

fn of_steps(alloc: Global, v: &Value) -> Result<String, Fault> {
    match v.get("store") {
        Some(steps) => of_store(alloc, items(steps)?),
        None => of_words(alloc, v),
    }
}

fn of_words(alloc: Global, v: &Value) -> Result<String, Fault> {
    match v.get("files") {
        Some(files) => of_files(alloc, v, items(files)?),
        None => of_transcript(alloc, v),
    }
}

fn of_transcript(alloc: Global, v: &Value) -> Result<String, Fault> {
    let scripts = scripts_of(alloc, items_at(v, "scripts")?)?;
    of_scripts(alloc, v, &scripts)
}

fn of_scripts(alloc: Global, v: &Value, scripts: &[List<u8>]) -> Result<String, Fault> {
    let transcript = bytes_of(alloc, items_at(v, "transcript")?, text_or_none(v, "rest")?)?;
    told_of(alloc, v, scripts, &transcript)
}

fn told_of(
    alloc: Global,
    v: &Value,
    scripts: &[List<u8>],
    transcript: &[u8],
) -> Result<String, Fault> {
    match v.get("check") {
        Some(_) => checked(alloc, scripts, transcript),
        None => judged(alloc, scripts, transcript, v.get("arrays").is_some()),
    }
}
