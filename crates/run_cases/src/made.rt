// Scripts that are made from a number, and the line about a run of them.
use crate::made_events::events_of;
use crate::made_logs::logs_of;
use crate::made_shown::{put_line, put_script};
use case_lines::{Fault, items, items_if, said};
use cells::List;
use script_runner::{Answer, Event, make_scripts, summary};
use serde_json::Value;
use std::alloc::Global;
use std::str;

/// The scripts of a number, or what is said of logs and a history, as lines of text.
pub(crate) fn answer(alloc: Global, v: &Value) -> Result<String, Fault> {
    match v.get("make") {
        Some(number) => made(alloc, v, number.as_u64().ok_or(Fault::Line)?),
        None => summed(alloc, v),
    }
}

fn made(alloc: Global, v: &Value, number: u64) -> Result<String, Fault> {
    let number = u32::try_from(number).map_err(|_| Fault::Line)?;
    let scripts = make_scripts(alloc, number)?;
    shown(alloc, v, &scripts)
}

// All scripts; where `lines` has pairs of a script and a line of it, these lines.
fn shown(alloc: Global, v: &Value, scripts: &[Vec<u8>]) -> Result<String, Fault> {
    let mut text = String::new(alloc);
    match v.get("lines") {
        Some(lines) => put_lines(&mut text, scripts, items(lines)?)?,
        None => put_scripts(alloc, &mut text, scripts)?,
    }
    Ok(text)
}

fn put_scripts(alloc: Global, text: &mut String, scripts: &[Vec<u8>]) -> Result<(), Fault> {
    for script in scripts {
        put_script(alloc, text, script)?;
    }
    Ok(())
}

fn put_lines(text: &mut String, scripts: &[Vec<u8>], lines: &[Value]) -> Result<(), Fault> {
    for pair in lines {
        let [script, line] = items(pair)? else {
            return Err(Fault::Line);
        };
        let place = script.as_u64().ok_or(Fault::Line)? as usize;
        let bytes = scripts.get(place).ok_or(Fault::Line)?;
        put_line(text, bytes, line.as_u64().ok_or(Fault::Line)?)?;
    }
    Ok(())
}

fn summed(alloc: Global, v: &Value) -> Result<String, Fault> {
    let logs = logs_of(alloc, items_if(v, "logs")?)?;
    with_logs(alloc, v, &logs)
}

fn with_logs(alloc: Global, v: &Value, logs: &[List<Answer>]) -> Result<String, Fault> {
    let history = events_of(alloc, items_if(v, "history")?)?;
    line(alloc, logs, &history)
}

fn line(alloc: Global, logs: &[List<Answer>], history: &[Event]) -> Result<String, Fault> {
    let bytes = summary(alloc, logs, history)?;
    let text = str::from_utf8(&bytes).map_err(|_| Fault::Line)?;
    said(alloc, text)
}
