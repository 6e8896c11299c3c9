// Scripts that are read and logs that are written, in memory.
use crate::reading::read_line;
use crate::stream_logs::logs_of;
use crate::writing::write_line;
use case_lines::{Fault, member};
use cells::List;
use script_runner::{Answer, are_all_ok, has_memory};
use serde_json::Value;
use std::alloc::Global;

/// What a line gives, as one line. `read` has names, `write` and `say` have logs.
pub(crate) fn answer(alloc: Global, v: &Value) -> Result<String, Fault> {
    if let Some(names) = v.get("read") {
        return read_line(alloc, v, names);
    }
    if let Some(logs) = v.get("write") {
        return write_line(alloc, v, logs);
    }
    say(alloc, v, member(v, "say")?)
}

fn say(alloc: Global, v: &Value, logs: &Value) -> Result<String, Fault> {
    let logs = logs_of(alloc, v, logs)?;
    said(alloc, &logs)
}

// What logs say together.
fn said(alloc: Global, logs: &[List<Answer>]) -> Result<String, Fault> {
    let ok = are_all_ok(logs);
    let memory = has_memory(logs);
    Ok(format!(in alloc; "all ok {ok}, memory {memory}")?)
}
