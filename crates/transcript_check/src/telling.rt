// The line of a verdict.
ghost use Rattle.std.specs.Prelude.{◌≡◌, ◌++◌, IfOk, decimal};
ghost use Rattle.transcript_check.specs.Verdicts.{verdict_of};
ghost use Rattle.transcript_fits.specs.Verdicts.{not_checked, verdict_text, verdict_status};

use crate::verdict::Verdict;
use itoa::Buffer;
use std::alloc::{AllocError, Global};

/// The line that tells a verdict, with its LF.
///
/// # Errors
/// An allocation failed.
pub(crate) fn text_of(alloc: Global, verdict: Verdict) -> Result<Vec<u8>, AllocError>
    ensures { IfOk result (λ text. text.items ≡ verdict_text (verdict_of verdict)) }
{
    match verdict {
        Verdict::Yes { events } => around(alloc, "{\"events\":", events, ",\"legal\":true}\n"),
        Verdict::No { part } => around(alloc, "{\"legal\":false,\"part\":", part as u64, "}\n"),
        Verdict::NotChecked { session, line } => of_line(alloc, session as u64, line),
    }
}

// The line that tells because of which line a transcript isn't checked.
fn of_line(alloc: Global, session: u64, line: u64) -> Result<Vec<u8>, AllocError>
    ensures { IfOk result (λ text. text.items ≡ verdict_text (not_checked session line)) }
{
    match around(alloc, "{\"line\":", line, ",\"not_checked\":") {
        Ok(text) => with_number(text, session, "}\n"),
        Err(e) => Err(e),
    }
}

/// The status of a verdict.
pub(crate) fn status_of(verdict: Verdict) -> u8
    ensures { result ≡ verdict_status (verdict_of verdict) }
{
    match verdict {
        Verdict::Yes { .. } => 0,
        Verdict::No { .. } => 1,
        Verdict::NotChecked { .. } => 1,
    }
}

// A number between two texts.
fn around(alloc: Global, before: &str, number: u64, behind: &str) -> Result<Vec<u8>, AllocError>
    ensures { IfOk result (λ text. text.items ≡ before.now ++ decimal number ++ behind.now) }
{
    match Vec::from_slice(alloc, before.as_bytes()) {
        Ok(text) => with_number(text, number, behind),
        Err(e) => Err(e),
    }
}

// A text with a number and another text behind it.
fn with_number(mut text: Vec<u8>, number: u64, behind: &str) -> Result<Vec<u8>, AllocError>
    ensures { IfOk result (λ all. all.items ≡ text.items ++ decimal number ++ behind.now) }
{
    let mut buffer = Buffer::new();
    text.extend_from_slice(buffer.format(number).as_bytes())?;
    text.extend_from_slice(behind.as_bytes())?;
    Ok(text)
}
