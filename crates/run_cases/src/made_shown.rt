// Scripts and their lines, as they are printed.
ghost use Rattle.std.specs.Prelude.{◌≤◌, length};

use case_lines::Fault;
use std::alloc::Global;
use std::str;

// The bytes that are printed of a line's front and of its end.
const PART: usize = 100;

/// How many bytes a script has, how many lines, and the first and the last of these.
pub(crate) fn put_script(alloc: Global, text: &mut String, script: &[u8]) -> Result<(), Fault> {
    put_counts(alloc, text, script.len(), count_lines(script))?;
    put_line(text, script, 1)?;
    put_line(text, script, count_lines(script))
}

fn put_counts(alloc: Global, text: &mut String, bytes: usize, lines: u64) -> Result<(), Fault> {
    let counts = format!(in alloc; "{bytes} bytes, {lines} lines\n")?;
    text.push_str(counts.as_str())?;
    Ok(())
}

fn count_lines(script: &[u8]) -> u64 {
    script.iter().filter(|byte| **byte == b'\n').count() as u64
}

/// A line of a script, from 1 on; of a long one the front and the end alone.
pub(crate) fn put_line(text: &mut String, script: &[u8], number: u64) -> Result<(), Fault> {
    let line = line_of(script, number);
    if line.len() <= 2 * PART {
        put_bytes(text, "  ", line)?;
    } else {
        let (front, rest) = line.split_at(PART);
        let (_, end) = rest.split_at(rest.len() - PART);
        put_bytes(text, "  ", front)?;
        put_bytes(text, " .. ", end)?;
    }
    text.push_str("\n")?;
    Ok(())
}

fn put_bytes(text: &mut String, before: &str, bytes: &[u8]) -> Result<(), Fault> {
    text.push_str(before)?;
    text.push_str(str::from_utf8(bytes).map_err(|_| Fault::Line)?)?;
    Ok(())
}

// The bytes of a line, without its LF; none where there is no such line.
fn line_of(script: &[u8], number: u64) -> &[u8] {
    let mut rest = script;
    for _ in 1..number {
        rest = behind_line(rest);
    }
    &rest[..length_of_line(rest)]
}

fn behind_line(script: &[u8]) -> &[u8] {
    let n = length_of_line(script);
    if n < script.len() {
        &script[n + 1..]
    } else {
        &[]
    }
}

fn length_of_line(script: &[u8]) -> usize
    ensures { result ≤ length script.now }
{
    match script.iter().position(|byte| *byte == b'\n') {
        Some(place) => place,
        None => script.len(),
    }
}
