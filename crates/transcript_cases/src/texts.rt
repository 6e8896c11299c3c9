// Scripts and transcripts by their lines.
use crate::args::items;
use crate::fault::Fault;
use cells::List;
use serde_json::Value;
use std::alloc::Global;

/// Scripts by their lines.
pub(crate) fn scripts_of(alloc: Global, scripts: &[Value]) -> Result<Vec<List<u8>>, Fault> {
    let mut all = Vec::with_capacity(alloc, scripts.len())?;
    for script in scripts {
        all.push(script_of(alloc, items(script)?)?)?;
    }
    Ok(all)
}

fn script_of(alloc: Global, lines: &[Value]) -> Result<List<u8>, Fault> {
    Ok(List::wrap(bytes_of(alloc, lines, "")?))
}

/// The lines, each with an LF, and a rest behind them. A text is a line as it stands, any other value is a line of compact JSON.
pub(crate) fn bytes_of(alloc: Global, lines: &[Value], rest: &str) -> Result<Vec<u8>, Fault> {
    let mut bytes = Vec::new(alloc);
    for line in lines {
        push_line(alloc, &mut bytes, line)?;
    }
    bytes.extend_from_slice(rest.as_bytes())?;
    Ok(bytes)
}

fn push_line(alloc: Global, bytes: &mut Vec<u8>, line: &Value) -> Result<(), Fault> {
    match line.as_str() {
        Some(text) => bytes.extend_from_slice(text.as_bytes())?,
        None => push_value(alloc, bytes, line)?,
    }
    bytes.push(b'\n')?;
    Ok(())
}

fn push_value(alloc: Global, bytes: &mut Vec<u8>, line: &Value) -> Result<(), Fault> {
    let text = line.to_string(alloc)?;
    bytes.extend_from_slice(text.as_bytes())?;
    Ok(())
}
