// Logs that are written to memory.
use crate::stream_logs::logs_of;
use case_lines::{Fault, number_or};
use cells::List;
use script_runner::{Answer, MemorySink, write_logs};
use serde_json::Value;
use std::alloc::Global;
use std::str;

// The most bytes of a text that is printed whole.
const SHORT: usize = 120;

/// What comes of logs: `written`, or why not; how many bytes the sink has, and these bytes where they are few, else their last ones.
///
/// `room` is the room of the sink, in bytes; `fail_write` names a call that is to fail.
pub(crate) fn write_line(alloc: Global, v: &Value, logs: &Value) -> Result<String, Fault> {
    let logs = logs_of(alloc, v, logs)?;
    with_sink(alloc, v, &logs)
}

fn with_sink(alloc: Global, v: &Value, logs: &[List<Answer>]) -> Result<String, Fault> {
    let room = number_or(v, "room", 1_000_000)?;
    let mut sink = MemorySink::new(alloc, room as usize)?;
    sink.fail_write(number_or(v, "fail_write", 0)?)?;
    write(alloc, &mut sink, logs)
}

fn write(alloc: Global, sink: &mut MemorySink, logs: &[List<Answer>]) -> Result<String, Fault> {
    match write_logs(alloc, sink, logs) {
        Ok(()) => written(alloc, "written", sink.bytes()),
        Err(cause) => unwritten(alloc, sink, format!(in alloc; "{cause:?}")?),
    }
}

fn unwritten(alloc: Global, sink: &MemorySink, cause: String) -> Result<String, Fault> {
    written(alloc, cause.as_str(), sink.bytes())
}

fn written(alloc: Global, what: &str, bytes: &[u8]) -> Result<String, Fault> {
    let size = bytes.len();
    if size <= SHORT {
        let text = str::from_utf8(bytes).map_err(|_| Fault::Line)?;
        return Ok(format!(in alloc; "{what} {size} {text:?}")?);
    }
    let (_, last) = bytes.split_at(size - SHORT);
    let text = str::from_utf8(last).map_err(|_| Fault::Line)?;
    Ok(format!(in alloc; "{what} {size} ..{text:?}")?)
}
