// The questions of open lines, answered in one walk over the events.
ghost use Rattle.std.specs.Prelude.{◌≡◌, ◌<◌, ◌≤◌, ◌+◌, ◌^◌, ◌↔◌, [], Some, IfOk, OnOk, IsTrue, take, length, true};
ghost use Rattle.std.specs.List.{AllByRecursion, slice_get};
ghost use Rattle.std.specs.List.Sorted.{IsPermutation, IsSortedByKey};
ghost use Rattle.std.specs.Ordering.{nat_cmp};
ghost use Rattle.history.specs.History.{History};
ghost use Rattle.serde_json.specs.Data.{Data};
ghost use Rattle.read_fits.specs.AnswerLines.{IsAnswerText};
ghost use Rattle.history.specs.Answers.{store_failed};
ghost use Rattle.history.specs.Places.{IsTable};
ghost use Rattle.read_fits.specs.Outline.{outline};
ghost use Rattle.read_fits.specs.Outcomes.{AreKeptOf};
ghost use Rattle.open_fits.specs.Built.{IsPrintedAs};
ghost use Rattle.open_fits.specs.Opens.{IsQuestion, IsRefusedAt, IsRefusedFor, IsRefusedFrom};
ghost use Rattle.open_fits.specs.Opened.{OpenedIsUnrefused};
ghost use Rattle.open_fits.specs.Asking.{moment_of_question, IsOutcomeTold};

use crate::built::is_answer;
use crate::questions::OpenQuestion;
use crate::refusals::{failure_of, is_free, refusal_of};
use history::Event;
use locations::Locations;
use read_fits::{Asked, LeafOutcome, Openings, Wanted, outcome_after, place_next};
use std::alloc::{AllocError, Global};

/// An answer with a member `open` refuses no leaf: where it isn't the one over all arrays, it doesn't fit.
pub fn opened_is_unrefused()
    ensures { OpenedIsUnrefused }
{}

/// Whether of each question one of its leaves is refused as the answer says. The questions are put in the order of
/// their moments, and answered in one walk over the events; the first one of which no leaf is refused so ends it.
///
/// # Errors
/// An allocation failed.
pub fn are_refused(
    alloc: Global,
    openings: &Openings,
    questions: &mut [OpenQuestion],
) -> Result<bool, AllocError>
    requires openings { AreKeptOf openings.now.events openings.now.opened openings.now.places }
    requires questions { AllByRecursion (IsQuestion openings.now.events) questions.old }
    ensures refused { IfOk result (λ all. (history : History) → outline history ≡ openings.now.events
        → IsTrue all ↔ AllByRecursion (IsRefusedAt history) questions.old) }
    ensures permutation { IsPermutation questions.old questions.new }
{
    sort_questions(questions);
    are_refused_in_order(alloc, openings, questions)
}

// Puts questions into the order of their moments. It takes no memory.
fn sort_questions(questions: &mut [OpenQuestion])
    ensures permutation { IsPermutation questions.old questions.new }
    ensures sorted { IsSortedByKey moment_of_question nat_cmp questions.new }
{
    questions.sort_unstable_by(|one, other| one.moment.cmp(&other.moment));
}

// The same of questions in the order of their moments.
fn are_refused_in_order(
    alloc: Global,
    openings: &Openings,
    questions: &[OpenQuestion],
) -> Result<bool, AllocError>
    requires openings { AreKeptOf openings.now.events openings.now.opened openings.now.places }
    requires questions { AllByRecursion (IsQuestion openings.now.events) questions.now }
    requires sorted { IsSortedByKey moment_of_question nat_cmp questions.now }
    ensures { IfOk result (λ all. (history : History) → outline history ≡ openings.now.events
        → IsTrue all ↔ AllByRecursion (IsRefusedAt history) questions.now) }
{
    let events = openings.events.items();
    let mut places = Locations::new(alloc);
    let mut seen = 0;
    for question in questions {
        place_until(alloc, &mut places, events, seen, question.moment)?;
        seen = question.moment;
        let refused = is_refused(alloc, openings, &places, question)?;
        if !refused {
            return Ok(false);
        }
    }
    Ok(true)
}

// Puts the arrays that the events from one moment to another open into the places of those before.
fn place_until(
    alloc: Global,
    places: &mut Locations,
    events: &[Event],
    from: u64,
    upto: u64,
) -> Result<(), AllocError>
    requires order { from ≤ upto }
    requires within { upto ≤ length events.now }
    requires table { IsTable (take from events.now) places.old }
    ensures { OnOk result (IsTable (take upto events.now) places.new) }
{
    for n in from as usize..upto as usize {
        place_next(alloc, places, &events[n])?;
    }
    Ok(())
}

// Whether a leaf of a question is refused, where these are the places of the arrays at its moment.
fn is_refused(
    alloc: Global,
    openings: &Openings,
    places: &Locations,
    question: &OpenQuestion,
) -> Result<bool, AllocError>
    requires openings { AreKeptOf openings.now.events openings.now.opened openings.now.places }
    requires question { IsQuestion openings.now.events question.now }
    requires table { IsTable (take question.now.moment openings.now.events) places.now }
    ensures { IfOk result (λ is. (history : History) → outline history ≡ openings.now.events
        → IsTrue is ↔ IsRefusedAt history question.now) }
{
    for place in question.first..question.end {
        let refused = is_leaf_refused(alloc, openings, places, question, place)?;
        if refused {
            return Ok(true);
        }
    }
    Ok(false)
}

fn is_leaf_refused(
    alloc: Global,
    openings: &Openings,
    places: &Locations,
    question: &OpenQuestion,
    place: usize,
) -> Result<bool, AllocError>
    requires openings { AreKeptOf openings.now.events openings.now.opened openings.now.places }
    requires question { IsQuestion openings.now.events question.now }
    requires table { IsTable (take question.now.moment openings.now.events) places.now }
    requires place { place < length question.now.plan.leaves }
    ensures { IfOk result (λ is. (history : History) → outline history ≡ openings.now.events
        → IsTrue is ↔ IsRefusedFrom history question.now place) }
{
    match wanted_at(question, place) {
        Wanted::Stored { asked } => is_asked_refused(
            alloc, openings, places, question, place, asked,
        ),
        Wanted::Given { .. } => Ok(false),
    }
}

// What the leaf at a place asks for.
fn wanted_at(question: &OpenQuestion, place: usize) -> &Wanted
    requires { place < length question.now.plan.leaves }
    ensures { slice_get question.now.plan.leaves place ≡ Some result.now }
{
    let leaves = question.plan.leaves.items();
    &leaves[place]
}

fn is_asked_refused(
    alloc: Global,
    openings: &Openings,
    places: &Locations,
    question: &OpenQuestion,
    place: usize,
    asked: &Asked,
) -> Result<bool, AllocError>
    requires openings { AreKeptOf openings.now.events openings.now.opened openings.now.places }
    requires question { IsQuestion openings.now.events question.now }
    requires table { IsTable (take question.now.moment openings.now.events) places.now }
    ensures { IfOk result (λ is. (history : History) → outline history ≡ openings.now.events
        → IsTrue is ↔ IsRefusedFor history question.now place asked.now) }
{
    let events = openings.events.items();
    let opened = openings.opened.items();
    let early = first_events(events, question.moment);
    match outcome_after(alloc, early, opened, places, asked) {
        Ok(outcome) => is_outcome_told(alloc, question, place, asked, outcome),
        Err(e) => Err(e),
    }
}

// The first events, so many.
fn first_events(events: &[Event], count: u64) -> &[Event]
    requires { count ≤ length events.now }
    ensures { result.now ≡ take count events.now }
{
    &events[..count as usize]
}

// Whether the answer is the one where the leaf comes to this at the question's moment.
fn is_outcome_told(
    alloc: Global,
    question: &OpenQuestion,
    place: usize,
    asked: &Asked,
    outcome: LeafOutcome,
) -> Result<bool, AllocError>
    requires few { question.now.is_failed ≡ true → question.now.moment + 1 < 2 ^ 64 }
    requires reads { (d : Data) × IsAnswerText question.now.told.line question.now.told.text d }
    ensures { IfOk result (IsOutcomeTold question.now place asked.now outcome) }
{
    let is_failed = question.is_failed;
    if is_failed {
        let free = is_free(&outcome);
        return is_failure_told(alloc, question, free);
    }
    let refusal = refusal_of(alloc, question, place, asked, outcome)?;
    match refusal {
        Some(body) => is_answer(alloc, body, &question.told),
        None => Ok(false),
    }
}

// Whether the answer is that a store call failed, where nothing lies at the leaf's place.
fn is_failure_told(
    alloc: Global,
    question: &OpenQuestion,
    is_free: bool,
) -> Result<bool, AllocError>
    requires { question.now.moment + 1 < 2 ^ 64 }
    ensures { IfOk result (λ is. (d : Data) → IsAnswerText question.now.told.line question.now.told.text d
        → IsTrue is ↔ IsTrue is_free × IsPrintedAs question.now.told d
        (store_failed (question.now.moment + 1) [] (Some question.now.told.numbers))) }
{
    if !is_free {
        return Ok(false);
    }
    match failure_of(alloc, question) {
        Ok(body) => is_answer(alloc, body, &question.told),
        Err(e) => Err(e),
    }
}
