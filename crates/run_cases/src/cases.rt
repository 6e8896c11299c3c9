use crate::{made, runs, streams};
use case_lines::{Fault, as_line};
use json_forms::parse;
use serde_json::Value;
use std::alloc::Global;
use std::sync::Wait;
use std::thread::Threads;

/// What a line gives, as lines of text: a run of scripts, scripts that are made or the line about a run of them, or streams alone.
pub(crate) fn answer<R: Threads + Wait + Sync>(
    rt: &R,
    alloc: Global,
    line: &str,
) -> Result<String, Fault> {
    let v = parse(alloc, line.as_bytes())?;
    if is_run(&v) {
        return runs::run_line(rt, alloc, &v);
    }
    if v.get("make").is_some() || v.get("logs").is_some() {
        return made::answer(alloc, &v);
    }
    as_line(streams::answer(alloc, &v))
}

// A run has an object of scripts; those that streams read are a list.
fn is_run(v: &Value) -> bool {
    match v.get("scripts") {
        Some(scripts) => scripts.as_object().is_some(),
        None => false,
    }
}
