// The verdict on a transcript.
use crate::fault::Fault;
use crate::judging::{MOST, not_checked, part};
use cells::List;
use std::alloc::Global;
use transcript_check::{Verdict, check};

/// The line because of which the transcript isn't checked, the part that fails, or how many events it tells of.
pub(crate) fn checked(
    alloc: Global,
    scripts: &[List<u8>],
    transcript: &[u8],
) -> Result<String, Fault> {
    if scripts.len() > MOST {
        return Err(Fault::Line);
    }
    match check(alloc, scripts, transcript)? {
        Verdict::Yes { events } => Ok(format!(in alloc; "legal, {events} events")?),
        Verdict::No { part: number } => part(alloc, number),
        Verdict::NotChecked { session, line } => not_checked(alloc, session, line),
    }
}
