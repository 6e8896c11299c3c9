// The numbers of events that an answer prints.
ghost use Rattle.std.specs.Prelude.{◌≡◌, ◌++◌, IfOk, OnOk, option_map, option_and_then, codes};
ghost use Rattle.serde_json.specs.View.{view};
ghost use Rattle.serde_json.specs.Find.{get};
ghost use Rattle.json_forms.specs.Lists.{list_items};
ghost use Rattle.transcript_laws.specs.Numbers.{event_of, listed, single, opened_in, done_in, failed_in, damaged_in};
ghost use Rattle.transcript_cut.specs.Numbers.{PrintsNumbers};

use cells::List;
use json_forms::list_items;
use serde_json::Value;
use std::alloc::{AllocError, Global};

/// The numbers of events that an answer prints: of new arrays, of commits, and of a failed store call; and whether it says that a chunk is
/// damaged. A number below 0 is told as 0, which is that of no event.
#[derive(Debug, Drop)]
pub struct EventNumbers {
    pub opened: List<u64>,
    pub done: List<u64>,
    pub failed: Option<u64>,
    pub damaged: bool,
}

// The numbers that an answer prints.
pub fn numbers_in(alloc: Global, answer: &Value) -> Result<EventNumbers, AllocError>
    ensures { IfOk result (PrintsNumbers (view answer.now)) }
{
    let failed = failed_in(answer);
    let damaged = damaged_in(answer);
    let opened = opened_in(alloc, answer)?;
    match done_in(alloc, answer) {
        Ok(done) => Ok(EventNumbers {
            opened,
            done,
            failed,
            damaged,
        }),
        Err(e) => Err(e),
    }
}

// The number of a failed store call.
fn failed_in(answer: &Value) -> Option<u64>
    ensures { single result ≡ failed_in (view answer.now) }
{
    let failure = answer.get("store_failed")?;
    let event = failure.get("event")?;
    event_of(event)
}

// Whether the answer says that a chunk is damaged.
fn damaged_in(answer: &Value) -> bool
    ensures { result ≡ damaged_in (view answer.now) }
{
    answer.get("damaged").is_some()
}

// The numbers of new arrays.
fn opened_in(alloc: Global, answer: &Value) -> Result<List<u64>, AllocError>
    ensures { IfOk result (λ numbers. numbers ≡ opened_in (view answer.now)) }
{
    let mut numbers = Vec::new(alloc);
    push_listed(&mut numbers, answer.get("events"))?;
    Ok(List::wrap(numbers))
}

// The numbers of commits.
fn done_in(alloc: Global, answer: &Value) -> Result<List<u64>, AllocError>
    ensures { IfOk result (λ numbers. numbers ≡ done_in (view answer.now)) }
{
    let mut numbers = Vec::new(alloc);
    push_listed(&mut numbers, answer.get("commit"))?;
    push_listed(&mut numbers, done_before_failing(answer))?;
    Ok(List::wrap(numbers))
}

// What was done before a store call failed.
fn done_before_failing(answer: &Value) -> Option<&Value>
    ensures { option_map (λ v. view v.now) result
        ≡ option_and_then (get (codes "done")) (get (codes "store_failed") (view answer.now)) }
{
    let failure = answer.get("store_failed")?;
    failure.get("done")
}

// Appends the whole numbers of a list, where there is one.
fn push_listed(numbers: &mut Vec<u64>, found: Option<&Value>) -> Result<(), AllocError>
    ensures { OnOk result (numbers.new.items
        ≡ numbers.old.items ++ listed (option_and_then list_items (option_map (λ v. view v.now) found.entry))) }
{
    let Some(value) = found else {
        return Ok(());
    };
    let Some(items) = list_items(value) else {
        return Ok(());
    };
    for item in items {
        push_number(numbers, item)?;
    }
    Ok(())
}

// Appends a whole number, where the value is one.
fn push_number(numbers: &mut Vec<u64>, value: &Value) -> Result<(), AllocError>
    ensures { OnOk result (numbers.new.items ≡ numbers.old.items ++ single (event_of (view value.now))) }
{
    match event_of(value) {
        Some(number) => {
            numbers.push(number)?;
            Ok(())
        }
        None => Ok(()),
    }
}

// A whole number as the number of an event; one below 0 is told as 0.
fn event_of(value: &Value) -> Option<u64>
    ensures { result ≡ event_of (view value.now) }
{
    match value.as_u64() {
        Some(number) => Some(number),
        None => match value.as_i64() {
            Some(number) if number >= 0 => Some(number as u64),
            Some(_) => Some(0),
            None => None,
        },
    }
}
