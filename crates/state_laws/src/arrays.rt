// The arrays of a history, by their numbers.
ghost use Rattle.std.specs.Prelude.{◌≡◌, Some, IsSome};
ghost use Rattle.std.specs.List.{slice_get};
ghost use Rattle.std.specs.Option.{option_copied, option_map};
ghost use Rattle.history.specs.Arrays.{Known, known_after};
ghost use Rattle.state_laws.specs.Indexed.{AreArrays};

use chunk_cache::Snapshot;
use history::{ArrayInfo, Event, Form, Kind};

/// An array: the place of the event that opened it, its form with its present shape, the number of the event that gave it that
/// shape (0 where none did), and of a local array its cells.
#[derive(Drop)]
pub(crate) struct Entry {
    pub(crate) place: usize,
    pub(crate) form: Form,
    pub(crate) resized: u64,
    pub(crate) local: Option<Snapshot>,
}

/// The array of this number, as it was opened.
pub(crate) fn info_at<'a>(
    events: &'a [Event],
    entries: &[Entry],
    array: u64,
) -> Option<&'a ArrayInfo>
    requires { AreArrays events.now entries.now }
    ensures { option_copied result ≡ option_map (λ (k : Known). k.info) (known_after events.now array) }
{
    let entry = entries.get(array as usize)?;
    let event = events.get(entry.place)?;
    match &event.kind {
        Kind::Opened { array } => Some(array),
        _ => None,
    }
}

/// The entry of an array of the history.
pub(crate) fn entry_at<'a>(events: &[Event], entries: &'a [Entry], array: u64) -> &'a Entry
    requires arrays { AreArrays events.now entries.now }
    requires known { IsSome (known_after events.now array) }
    ensures { Some result.now ≡ slice_get entries.now array }
{
    prove!(array < entries.len() as u64);
    &entries[array as usize]
}
