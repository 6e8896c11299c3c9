// What lines are judged by.
ghost use Rattle.std.specs.Prelude.{◌≡◌, ◌<◌, ◌+◌, ◌^◌, IfOk, count_by, if◌then◌else◌, length};
ghost use Rattle.history.specs.Legal.{is_opening};
ghost use Rattle.open_fits.specs.StoredPuts.{AreStored};
ghost use Rattle.stated_history.specs.Outcomes.{AreKeptOf};
ghost use Rattle.transcript_fits.specs.Judges.{AreCounts};

use history::{Event, Kind};
use open_fits::{VersionStore, is_stored};
use stated_history::{Act, Openings, Source};
use std::alloc::{AllocError, Global};

/// What lines are judged by: what is told, what is kept of what each line does, the events that are stated, what is kept of all chunks behind them,
/// how many arrays are open behind each number of events, and of each array whether it lies on the mount.
#[derive(Clone, Copy)]
pub(crate) struct Judge<'j> {
    pub(crate) source: &'j Source<'j>,
    pub(crate) acts: &'j [Option<Act>],
    pub(crate) events: &'j [Event],
    pub(crate) store: &'j VersionStore,
    pub(crate) counts: &'j [u64],
    pub(crate) stored: &'j [bool],
}

/// How many arrays are open behind each number of events, from 0 on.
///
/// # Errors
/// An allocation failed.
pub(crate) fn counts_of(alloc: Global, events: &[Event]) -> Result<Vec<u64>, AllocError>
    ensures { IfOk result (λ counts. AreCounts events.now counts.items) }
{
    let mut counts = vec![in alloc; 0; 1]?;
    let mut count = 0;
    for i in 0..events.len() {
        count = count_behind(count, &events[i]);
        counts.push(count)?;
    }
    Ok(counts)
}

// One more behind an event that opens an array.
fn count_behind(count: u64, event: &Event) -> u64
    requires { count + 1 < 2 ^ 64 }
    ensures { result ≡ count + (if is_opening event.now then 1 else 0) }
{
    match event.kind {
        Kind::Opened { .. } => count + 1,
        Kind::Done { .. } => count,
        Kind::Resized { .. } => count,
        Kind::Fault { .. } => count,
    }
}

/// Of each array whether it lies on the mount.
///
/// # Errors
/// An allocation failed.
pub(crate) fn stored_of(alloc: Global, openings: &Openings) -> Result<Vec<bool>, AllocError>
    requires kept { AreKeptOf openings.now.events openings.now.opened openings.now.places }
    requires count { length openings.now.opened ≡ count_by is_opening openings.now.events }
    ensures { IfOk result (λ stored. AreStored openings.now.events stored.items) }
{
    let mut stored = Vec::new(alloc);
    for array in 0..openings.opened.items().len() {
        stored.push(is_stored(openings, array as u64))?;
    }
    Ok(stored)
}
