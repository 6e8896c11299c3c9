// Whether a stated history may have happened, and whether what reads ask of it was there.
ghost use Rattle.std.specs.Prelude.{◌≡◌, ◌≤◌, ◌∷◌, ◌++◌, [], length, IfOk, IfSome, IfNone, IsTrue, ◌↔◌, if◌then◌else◌};
ghost use Rattle.std.specs.FinMap as finmap;
ghost use Rattle.std.specs.List.{AllByRecursion};
ghost use Rattle.event_replay.specs.Links.{AreEnds};
ghost use Rattle.event_replay.specs.Sweeps.{IsStated, IsNext, IsWaitingIn, IsSwept};
ghost use Rattle.history.specs.History.{History};
ghost use Rattle.history.specs.Legal.{IsLegal, IsLegalKind, is_opening};
ghost use Rattle.version_store.specs.Stores.{IsStoreOf};

use crate::ends::ends_of;
use crate::following::commit;
use crate::waiting::Waiting;
use crate::windows::are_met;
use history::{Event, Kind};
use std::alloc::{AllocError, Global};
use version_store::VersionStore;

/// Whether each event of a stated history may follow those before it, from an empty store on, and whether what each read asks for was there
/// in its window. `None` where an event may not follow: a commit names a cell of an array that isn't open then, or has a Read with other
/// words than those that were there. `Some(false)` where all may and what one read asks for wasn't there; a window that begins behind its
/// end has nothing in it. The time is that of `replay` for each commit, and that of `is_met` for each demand.
///
/// # Errors
/// `AllocError` where memory is wanting.
pub fn sweep(
    alloc: Global,
    events: &[Event],
    waiting: &[Waiting],
) -> Result<Option<bool>, AllocError>
    requires stated { IsStated events.now }
    requires waiting { AllByRecursion (IsWaitingIn events.now) waiting.now }
    ensures none { IfOk result (λ found. IfNone found (¬ IsLegal finmap.empty events.now)) }
    ensures some { IfOk result (λ found. IfSome found (IsSwept events.now waiting.now)) }
{
    let mut store = VersionStore::new(alloc);
    sweep_into(alloc, &mut store, events, waiting)
}

/// The same, and where each event may follow, the words of all chunks are kept behind it.
///
/// # Errors
/// `AllocError` where memory is wanting; what is kept is of no use then, nor behind `None`.
pub fn sweep_into(
    alloc: Global,
    store: &mut VersionStore,
    events: &[Event],
    waiting: &[Waiting],
) -> Result<Option<bool>, AllocError>
    requires stated { IsStated events.now }
    requires waiting { AllByRecursion (IsWaitingIn events.now) waiting.now }
    requires empty { IsStoreOf [] store.old }
    ensures none { IfOk result (λ found. IfNone found (¬ IsLegal finmap.empty events.now)) }
    ensures some { IfOk result (λ found. IfSome found (IsSwept events.now waiting.now)) }
    ensures kept { IfOk result (λ found. IfSome found (λ met. IsStoreOf events.now store.new)) }
{
    let ends = ends_of(alloc, waiting, events.len())?;
    sweep_ends(alloc, store, events, waiting, &ends.last, &ends.earlier)
}

// The same by which windows end at each number of events.
fn sweep_ends(
    alloc: Global,
    store: &mut VersionStore,
    events: &[Event],
    waiting: &[Waiting],
    last: &[usize],
    earlier: &[usize],
) -> Result<Option<bool>, AllocError>
    requires stated { IsStated events.now }
    requires waiting { AllByRecursion (IsWaitingIn events.now) waiting.now }
    requires empty { IsStoreOf [] store.old }
    requires ends { AreEnds waiting.now (length events.now) last.now earlier.now }
    ensures none { IfOk result (λ found. IfNone found (¬ IsLegal finmap.empty events.now)) }
    ensures some { IfOk result (λ found. IfSome found (IsSwept events.now waiting.now)) }
    ensures kept { IfOk result (λ found. IfSome found (λ met. IsStoreOf events.now store.new)) }
{
    let mut opened = 0;
    let mut met = true;
    for n in 0..events.len() {
        met = are_met(alloc, store, opened, waiting, last, earlier, n, met)?;
        let event = &events[n];
        if !step(alloc, store, opened, n as u64 + 1, event)? {
            return Ok(None);
        }
        opened += openings_of(event);
    }
    let all = are_met(
        alloc,
        store,
        opened,
        waiting,
        last,
        earlier,
        events.len(),
        met,
    )?;
    Ok(Some(all))
}

// Puts the next event into what is kept of all chunks, where it may follow the events before it, which opened so many arrays.
fn step(
    alloc: Global,
    store: &mut VersionStore,
    opened: u64,
    number: u64,
    event: &Event,
) -> Result<bool, AllocError>
    requires { (events : History) × (before : History) × IsNext events before opened number event.now store.old }
    ensures legal { IfOk result (λ may. (events : History) (before : History)
        → IsNext events before opened number event.now store.old
        → IsTrue may ↔ IsLegalKind finmap.empty before event.now.kind) }
    ensures kept { IfOk result (λ may. IsTrue may → (events : History) (before : History)
        → IsNext events before opened number event.now store.old → IsStoreOf (before ++ event.now ∷ []) store.new) }
{
    match &event.kind {
        Kind::Opened { array } => {
            store.open(alloc, number, array)?;
            Ok(true)
        }
        Kind::Done { ops, .. } => commit(alloc, store, opened, number, ops.items()),
        Kind::Resized { .. } => unreachable!(),
        Kind::Fault { .. } => Ok(true),
    }
}

// How many arrays an event opens.
fn openings_of(event: &Event) -> u64
    ensures value { result ≡ (if is_opening event.now then 1 else 0) }
    ensures few { result ≤ 1 }
{
    match &event.kind {
        Kind::Opened { .. } => 1,
        Kind::Done { .. } => 0,
        Kind::Resized { .. } => 0,
        Kind::Fault { .. } => 0,
    }
}
