// What opening a stored leaf gives, over the arrays that were opened so far.
ghost use Rattle.std.specs.Prelude.{◌≡◌, Some, ◌++◌, ◌∷◌, [], ℕ, IfOk, OnOk, OnErr, option_map};
ghost use Rattle.std.specs.FinMap as finmap;
ghost use Rattle.std.specs.List.{slice_get};
ghost use Rattle.transcript_cut.specs.Homes.{MayHaveShape};
ghost use Rattle.chunk_forms.specs.Wants.{mismatch_of};
ghost use Rattle.history.specs.Arrays.{Known, known_after};
ghost use Rattle.history.specs.History.{History};
ghost use Rattle.history.specs.Leaves.{nothing};
ghost use Rattle.history.specs.Outcomes.{opening_outcome, outcome_at, outcome_in_store, unless_differs, there};
ghost use Rattle.history.specs.Places.{IsTable, location, array_at};
ghost use Rattle.history.specs.declared.array.ArrayInfo.{ArrayInfo as InfoOf};
ghost use Rattle.stated_arrays.specs.Asked.{leaf_asked};
ghost use Rattle.stated_arrays.specs.Outcomes.{AreKeptOf, IsOpenedAt, IsOpenedAs, IsArrayAt, IsToldAs, placed_by};

use crate::asked::{Asked, location_of};
use cells::Name;
use history::{ArrayInfo, Event, Form, Home, Kind, MadeError, Member, Want, made, mismatch};
use locations::{Found, Locations};
use std::alloc::{AllocError, Global};
use transcript_cut::form_of;

/// What opening a leaf gives.
#[derive(Debug, Drop)]
pub enum LeafOutcome {
    /// An array lies above or below its place, this the least location of one.
    Taken { other: Name },
    /// It is the array of this number.
    There { number: u64 },
    /// It is there, and may not be opened.
    Exists,
    /// It is there, and this member differs from what is asked.
    Mismatch { member: &'static str },
    /// It isn't there, and may not be made.
    NotFound,
    /// It is to be made, and this member isn't determined.
    BadWant { member: Member },
    /// A new array is to be made with this metadata.
    Made { form: Form },
}

/// What opening a leaf gives behind these events, where nothing else lies in the store. Of its arrays these are the
/// places, and, for each by its number, that of the event that opened it.
///
/// # Errors
/// An allocation failed.
pub fn outcome_after(
    alloc: Global,
    events: &[Event],
    opened: &[u64],
    places: &Locations,
    asked: &Asked,
) -> Result<LeafOutcome, AllocError>
    requires { AreKeptOf events.now opened.now places.now }
    ensures { IfOk result (λ told. IsToldAs events.now told
        (opening_outcome events.now (leaf_asked asked.now) nothing)) }
{
    let location = location_of(alloc, asked)?;
    match places.find(alloc, location.items()) {
        Ok(Found::Taken { other }) => Ok(LeafOutcome::Taken { other }),
        Ok(Found::There { number }) => checked(alloc, array_of(events, opened, number), asked),
        Ok(Found::Free) => made_new(alloc, asked),
        Err(e) => Err(e),
    }
}

/// The array that lies at a location behind these events, as it was opened; the tables are as `outcome_after` takes
/// them.
///
/// # Errors
/// An allocation failed.
pub fn array_at<'e>(
    alloc: Global,
    events: &'e [Event],
    opened: &[u64],
    places: &Locations,
    location: &str,
) -> Result<Option<&'e ArrayInfo>, AllocError>
    requires { AreKeptOf events.now opened.now places.now }
    ensures { IfOk result (λ found. IsArrayAt (array_at events.now location.now) (option_map (λ i. i.now) found)) }
{
    match places.find(alloc, location) {
        Ok(Found::There { number }) => Ok(Some(array_of(events, opened, number))),
        Ok(Found::Taken { .. }) => Ok(None),
        Ok(Found::Free) => Ok(None),
        Err(e) => Err(e),
    }
}

// The array of a number, as it was opened.
fn array_of<'e>(events: &'e [Event], opened: &[u64], number: u64) -> &'e ArrayInfo
    requires { (info : InfoOf) × IsOpenedAs events.now opened.now number info }
    ensures { (info : InfoOf) → IsOpenedAs events.now opened.now number info → result.now ≡ info }
{
    array_opened(events, number_at(opened, number))
}

// The number of the event that opened an array.
fn number_at(opened: &[u64], array: u64) -> u64
    requires { (n : ℕ) × (slice_get opened.now array ≡ Some n) }
    ensures { slice_get opened.now array ≡ Some result }
{
    opened[array as usize]
}

/// The array that the event of a number opens.
pub fn array_opened(events: &[Event], number: u64) -> &ArrayInfo
    requires { (info : InfoOf) × IsOpenedAt events.now number info }
    ensures { (info : InfoOf) → IsOpenedAt events.now number info → result.now ≡ info }
{
    opening_in(&events[number as usize - 1])
}

fn opening_in(event: &Event) -> &ArrayInfo
    requires { (info : InfoOf) × (event.now.kind ≡ Kind.Opened info) }
    ensures { event.now.kind ≡ Kind.Opened result.now }
{
    match &event.kind {
        Kind::Opened { array } => array,
        Kind::Done { .. } => unreachable!(),
        Kind::Resized { .. } => unreachable!(),
        Kind::Fault { .. } => unreachable!(),
    }
}

// What opening a leaf gives at whose place this array lies.
fn checked(alloc: Global, info: &ArrayInfo, asked: &Asked) -> Result<LeafOutcome, AllocError>
    requires { MayHaveShape info.now.home info.now.shape }
    ensures { IfOk result (λ told. (events : History) (k : Known) → known_after events info.now.number ≡ Some k
        → k.info ≡ info.now → k.shape ≡ info.now.shape
        → IsToldAs events told (outcome_at (leaf_asked asked.now) nothing (Some k))) }
{
    if !asked.may_open {
        return Ok(LeafOutcome::Exists);
    }
    match form_of(alloc, &info.home, info.shape.items()) {
        Ok(form) => Ok(compared(info, &asked.want, &form)),
        Err(e) => Err(e),
    }
}

// The same of a leaf that may be opened, by the array's metadata.
fn compared(info: &ArrayInfo, want: &Want, form: &Form) -> LeafOutcome
    ensures { (events : History) (k : Known) → known_after events info.now.number ≡ Some k
        → IsToldAs events result (unless_differs (mismatch_of want.now form.now info.now.shape) (there k)) }
{
    match mismatch(want, form, info.shape.items()) {
        Some(member) => LeafOutcome::Mismatch { member },
        None => LeafOutcome::There {
            number: info.number,
        },
    }
}

// What opening a leaf gives where no array lies at its place.
fn made_new(alloc: Global, asked: &Asked) -> Result<LeafOutcome, AllocError>
    ensures { IfOk result (λ told. (events : History)
        → IsToldAs events told (outcome_in_store (leaf_asked asked.now) nothing)) }
{
    if !asked.may_create {
        return Ok(LeafOutcome::NotFound);
    }
    match made(alloc, &asked.want) {
        Ok(form) => Ok(LeafOutcome::Made { form }),
        Err(MadeError::Undetermined { member }) => Ok(LeafOutcome::BadWant { member }),
        Err(MadeError::Memory) => Err(AllocError),
    }
}

/// Enters the array that an event opens, if it opens one, into the places of the arrays before it.
///
/// # Errors
/// An allocation failed; the places are as they were.
pub fn place_next(alloc: Global, places: &mut Locations, event: &Event) -> Result<(), AllocError>
    ensures next { OnOk result ((events : History) → IsTable events places.old
        → IsTable (events ++ event.now ∷ []) places.new) }
    ensures err { OnErr result (places.new ≡ places.old) }
{
    match &event.kind {
        Kind::Opened { array } => place_array(alloc, places, array),
        Kind::Done { .. } => Ok(()),
        Kind::Resized { .. } => Ok(()),
        Kind::Fault { .. } => Ok(()),
    }
}

fn place_array(alloc: Global, places: &mut Locations, info: &ArrayInfo) -> Result<(), AllocError>
    ensures placed { OnOk result (places.new ≡ placed_by (location info.now.home) info.now.number places.old) }
    ensures err { OnErr result (places.new ≡ places.old) }
{
    match &info.home {
        Home::Zarr { mount, path, .. } => place(
            alloc,
            places,
            mount.items(),
            path.items(),
            info.number,
        ),
        Home::N5 { mount, path, .. } => place(
            alloc,
            places,
            mount.items(),
            path.items(),
            info.number,
        ),
        Home::Zarr3 { mount, path, .. } => place(
            alloc,
            places,
            mount.items(),
            path.items(),
            info.number,
        ),
        Home::Local { .. } => Ok(()),
    }
}

fn place(
    alloc: Global,
    places: &mut Locations,
    mount: &str,
    path: &str,
    number: u64,
) -> Result<(), AllocError>
    ensures placed { OnOk result (places.new ≡ finmap.insert places.old (mount.now ++ 47 ∷ path.now) number) }
    ensures err { OnErr result (places.new ≡ places.old) }
{
    let here = format!(in alloc; "{mount}/{path}")?;
    places.put(alloc, here.as_str(), number)
}
