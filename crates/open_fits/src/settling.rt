// The leaves of an open line that were opened, and their arrays.
ghost use Rattle.std.specs.Prelude.{◌≡◌, ℕ, IfOk, Some, length, map};
ghost use Rattle.std.specs.List.{AllByRecursion, slice_get};
ghost use Rattle.read_fits.specs.Homes.{reference_of};
ghost use Rattle.stack_driver.specs.References.{IsReference};
ghost use Rattle.read_fits.specs.OpenedViews.{IsGivenAt, AreGiven, paired};
ghost use Rattle.read_fits.specs.Asked.{wanted_leaf};
ghost use Rattle.read_fits.specs.Outcomes.{AreKeptOf};
ghost use Rattle.read_fits.specs.declared.Wanted.TheVariants.{Stored};
ghost use Rattle.open_fits.specs.Opens.{IsSmall};
ghost use Rattle.open_fits.specs.Settling.{AreArraysFor, IsArrayFor, IsFoundAs, MayBeNamed, MayBeNamedBy, IsNamed, IsNamedBy, IsNamedIfMade, IsNamedIfEarly, IsNamedOutcome, IsNamedByOutcome};

use history::{ArrayInfo, ArrayRef, Event};
use read_fits::{Asked, LeafOutcome, Openings, Wanted, array_opened, array_ref, outcome_after};
use std::alloc::{AllocError, Global};

/// The arrays of the first leaves that were opened, up to the first that wasn't, where each takes a number or none, and
/// the line may have looked at events up to this one.
///
/// # Errors
/// An allocation failed.
pub(crate) fn arrays_settled(
    alloc: Global,
    leaves: &[Wanted],
    takings: &[Option<u64>],
    openings: &Openings,
    upto: u64,
) -> Result<Vec<ArrayRef>, AllocError>
    requires small { AllByRecursion IsSmall leaves.now }
    requires openings { AreKeptOf openings.now.events openings.now.opened openings.now.places }
    requires count { length takings.now ≡ length leaves.now }
    requires given { AreGiven openings.now.events (paired (map wanted_leaf leaves.now) takings.now) }
    ensures { IfOk result (λ arrays. AreArraysFor openings.now.events upto leaves.now takings.now arrays.items) }
{
    let mut arrays = Vec::with_capacity(alloc, leaves.len())?;
    for place in 0..leaves.len() {
        let array = array_settled(alloc, &leaves[place], takings[place], openings, upto)?;
        match array {
            Some(array) => arrays.push(array)?,
            None => return Ok(arrays),
        }
    }
    Ok(arrays)
}

// The array of a leaf, where it was opened.
fn array_settled(
    alloc: Global,
    wanted: &Wanted,
    taking: Option<u64>,
    openings: &Openings,
    upto: u64,
) -> Result<Option<ArrayRef>, AllocError>
    requires small { IsSmall wanted.now }
    requires openings { AreKeptOf openings.now.events openings.now.opened openings.now.places }
    requires given { IsGivenAt openings.now.events (wanted_leaf wanted.now) taking }
    ensures { IfOk result (IsArrayFor openings.now.events upto wanted.now taking) }
{
    match wanted {
        Wanted::Given { .. } => array_given(alloc, taking, openings.events.items()),
        Wanted::Stored { asked } => array_stored(alloc, asked, taking, openings, upto),
    }
}

// The array of a leaf with numbers of its own.
fn array_given(
    alloc: Global,
    taking: Option<u64>,
    events: &[Event],
) -> Result<Option<ArrayRef>, AllocError>
    requires { MayBeNamedBy events.now taking }
    ensures { IfOk result (IsNamedBy events.now taking) }
{
    match taking {
        Some(number) => array_by(alloc, events, number),
        None => Ok(None),
    }
}

// That of a stored leaf: a new one, where it may be made, or one that lay there.
fn array_stored(
    alloc: Global,
    asked: &Asked,
    taking: Option<u64>,
    openings: &Openings,
    upto: u64,
) -> Result<Option<ArrayRef>, AllocError>
    requires openings { AreKeptOf openings.now.events openings.now.opened openings.now.places }
    requires given { IsGivenAt openings.now.events (wanted_leaf (Stored asked.now)) taking }
    ensures { IfOk result (IsArrayFor openings.now.events upto (Stored asked.now) taking) }
{
    match taking {
        Some(number) => array_made(alloc, asked, number, openings.events.items()),
        None => array_found(alloc, asked, openings, upto),
    }
}

// That of a leaf that takes a number: it was made, if it may be.
fn array_made(
    alloc: Global,
    asked: &Asked,
    number: u64,
    events: &[Event],
) -> Result<Option<ArrayRef>, AllocError>
    requires { MayBeNamed events.now number }
    ensures { IfOk result (IsNamedIfMade events.now number asked.now) }
{
    if !asked.may_create {
        return Ok(None);
    }
    array_by(alloc, events, number)
}

// That of a leaf that takes none: it lay there behind the last event that the line may have looked at.
fn array_found(
    alloc: Global,
    asked: &Asked,
    openings: &Openings,
    upto: u64,
) -> Result<Option<ArrayRef>, AllocError>
    requires { AreKeptOf openings.now.events openings.now.opened openings.now.places }
    ensures { IfOk result (IsFoundAs openings.now.events asked.now upto) }
{
    let events = openings.events.items();
    let opened = openings.opened.items();
    match outcome_after(alloc, events, opened, &openings.places, asked) {
        Ok(outcome) => array_of_outcome(alloc, events, opened, outcome, upto),
        Err(e) => Err(e),
    }
}

fn array_of_outcome(
    alloc: Global,
    events: &[Event],
    opened: &[u64],
    outcome: LeafOutcome,
    upto: u64,
) -> Result<Option<ArrayRef>, AllocError>
    requires { IsNamedOutcome events.now opened.now outcome }
    ensures { IfOk result (IsNamedByOutcome events.now opened.now upto outcome) }
{
    match outcome {
        LeafOutcome::There { number } => array_early(
            alloc,
            events,
            number_at(opened, number),
            upto,
        ),
        LeafOutcome::Taken { .. } => Ok(None),
        LeafOutcome::Exists => Ok(None),
        LeafOutcome::Mismatch { .. } => Ok(None),
        LeafOutcome::NotFound => Ok(None),
        LeafOutcome::BadWant { .. } => Ok(None),
        LeafOutcome::Made { .. } => Ok(None),
    }
}

// The number of the event that opened an array.
fn number_at(opened: &[u64], array: u64) -> u64
    requires { (n : ℕ) × (slice_get opened.now array ≡ Some n) }
    ensures { slice_get opened.now array ≡ Some result }
{
    opened[array as usize]
}

// The array that the event of a number opens, if it is one of the first.
fn array_early(
    alloc: Global,
    events: &[Event],
    number: u64,
    upto: u64,
) -> Result<Option<ArrayRef>, AllocError>
    requires { MayBeNamed events.now number }
    ensures { IfOk result (IsNamedIfEarly events.now number upto) }
{
    if upto < number {
        return Ok(None);
    }
    array_by(alloc, events, number)
}

// The array that the event of a number opens.
fn array_by(alloc: Global, events: &[Event], number: u64) -> Result<Option<ArrayRef>, AllocError>
    requires { MayBeNamed events.now number }
    ensures { IfOk result (IsNamed events.now number) }
{
    named(alloc, array_opened(events, number))
}

// How views name an array, as it was opened.
fn named(alloc: Global, info: &ArrayInfo) -> Result<Option<ArrayRef>, AllocError>
    requires { IsReference (reference_of info.now info.now.shape) }
    ensures { IfOk result (λ array. array ≡ Some (reference_of info.now info.now.shape)) }
{
    match array_ref(alloc, info, info.shape.items()) {
        Ok(array) => Ok(Some(array)),
        Err(e) => Err(e),
    }
}
