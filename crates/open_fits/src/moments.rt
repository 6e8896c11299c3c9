// The moment of which an answer to an open line speaks.
ghost use Rattle.std.specs.Prelude.{◌≡◌, ◌<◌, ◌+◌, ◌^◌, true, None, option_map};
ghost use Rattle.serde_json.specs.View.{view};
ghost use Rattle.read_fits.specs.ToldNumbers.{event_of};
ghost use Rattle.open_fits.specs.Moments.{told_refusal, told_at, moment_by};

use crate::questions::OpenTold;
use serde_json::Value;

/// A number of events, behind which a leaf was refused or a store call for it failed.
#[derive(Clone, Copy, Debug, PartialEq, Eq)]
pub(crate) struct Moment {
    pub events: u64,
    pub is_failed: bool,
}

/// The moment of which the answer speaks: the one that it tells, the one before a failed store call, or else the first
/// at which the line may have looked.
pub(crate) fn moment_of(told: &OpenTold, answer: &Value) -> Moment
    ensures value { result ≡ moment_by (told_at (view answer.now)) told.now.failed told.now.from }
    ensures few { result.is_failed ≡ true → result.events + 1 < 2 ^ 64 }
{
    match at_told(answer) {
        Some(events) => Moment {
            events,
            is_failed: false,
        },
        None => moment_failed(told),
    }
}

fn moment_failed(told: &OpenTold) -> Moment
    ensures value { result ≡ moment_by None told.now.failed told.now.from }
    ensures few { result.is_failed ≡ true → result.events + 1 < 2 ^ 64 }
{
    match told.failed {
        Some(event) => Moment {
            events: event.saturating_sub(1),
            is_failed: true,
        },
        None => Moment {
            events: told.from,
            is_failed: false,
        },
    }
}

// The number of events that a refusal tells.
fn at_told(answer: &Value) -> Option<u64>
    ensures { result ≡ told_at (view answer.now) }
{
    let refusal = refusal_told(answer)?;
    let at = refusal.get("at")?;
    event_of(at)
}

// What is told of a leaf that is refused, where the number of events is told.
fn refusal_told(answer: &Value) -> Option<&Value>
    ensures { option_map (λ v. view v.now) result ≡ told_refusal (view answer.now) }
{
    if let Some(refusal) = answer.get("exists") {
        return Some(refusal);
    }
    if let Some(refusal) = answer.get("mismatch") {
        return Some(refusal);
    }
    if let Some(refusal) = answer.get("not_found") {
        return Some(refusal);
    }
    answer.get("path_taken")
}

// A whole number as the number of an event; one below 0 is told as 0.
fn event_of(value: &Value) -> Option<u64>
    ensures { result ≡ event_of (view value.now) }
{
    match value.as_u64() {
        Some(number) => Some(number),
        None => match value.as_i64() {
            Some(number) if number >= 0 => Some(number as u64),
            Some(_) => Some(0),
            None => None,
        },
    }
}
