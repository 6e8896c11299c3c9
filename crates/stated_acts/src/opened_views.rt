// The views that open lines bind.
ghost use Rattle.std.specs.Prelude.{◌≡◌, ◌∷◌, ◌++◌, [], None, Some, IfOk, length, map, option_map};
ghost use Rattle.std.specs.List.{AllByRecursion};
ghost use Rattle.stated_arrays.specs.Homes.{reference_of};
ghost use Rattle.history.specs.History.{History};
ghost use Rattle.history.specs.Arrays.{ref_of};
ghost use Rattle.history.specs.Places as place;
ghost use Rattle.history.specs.declared.array.ArrayInfo.{ArrayInfo as InfoOf};
ghost use Rattle.line_acts.specs.Openings.{leaf_of, leaves_of, build_of};
ghost use Rattle.stated_arrays.specs.Leaves.{IsSoundLeaf};
ghost use Rattle.stated_arrays.specs.Conditions.{IsSoundPlan, IsTree};
ghost use Rattle.stack_driver.specs.Conditions.{IsView};
ghost use Rattle.stack_driver.specs.References.{IsReference};
ghost use Rattle.stack_driver.specs.declared.view.View.{View as ViewOf};
ghost use Rattle.stated_arrays.specs.OpenedViews.{IsGivenAt, AreGiven, paired};
ghost use Rattle.stated_arrays.specs.Lines.{bare};
ghost use Rattle.stated_arrays.specs.Outcomes.{AreKeptOf, IsOpenedAt};
ghost use Rattle.stated_arrays.specs.Outline.{outline};
ghost use Rattle.stated_arrays.specs.Takings as told;
ghost use Rattle.stated_arrays.specs.Takings.{ref_of_leaf, all_refs, built_view, opened_view};
ghost use Rattle.stated_arrays.specs.Transcript.{mount};

use cells::Name;
use history::{ArrayInfo, ArrayRef, Event};
use locations::Locations;
use stack_driver::View;
use stated_arrays::{
    BuildError, OpenPlan, Openings, SpecLeaf, array_at, array_opened, array_ref, build,
};
use std::alloc::{AllocError, Global};

/// The view that an open line of a plan binds over the arrays of its leaves, if there is one. Each leaf takes a number
/// or none: one that takes a number has the array that the event of this number opens, and one that takes none has the
/// array that lies at its place in the end.
///
/// # Errors
/// An allocation failed.
pub fn view_opened(
    alloc: Global,
    plan: &OpenPlan,
    takings: &[Option<u64>],
    openings: &Openings,
) -> Result<Option<View>, AllocError>
    requires plan { IsSoundPlan (mount ∷ []) plan.now }
    requires openings { AreKeptOf openings.now.events openings.now.opened openings.now.places }
    requires count { length takings.now ≡ length plan.now.leaves }
    requires given { AreGiven openings.now.events (paired (leaves_of plan.now) takings.now) }
    ensures view { IfOk result (λ v. (history : History) → outline history ≡ openings.now.events
        → opened_view history (paired (leaves_of plan.now) takings.now) (build_of plan.now) ≡ v) }
    ensures sound { IfOk result (λ o. (v : ViewOf) → o ≡ Some v → IsView v) }
{
    let found = arrays_of(alloc, plan.leaves.items(), takings, openings)?;
    match found {
        Some(arrays) => built(alloc, plan, &arrays),
        None => Ok(None),
    }
}

// The view of a plan over the arrays of its leaves, if no node is refused.
fn built(alloc: Global, plan: &OpenPlan, arrays: &[ArrayRef]) -> Result<Option<View>, AllocError>
    requires tree { IsTree (length plan.now.leaves) plan.now.tree }
    requires count { length arrays.now ≡ length plan.now.leaves }
    ensures view { IfOk result (λ v. built_view (build_of plan.now arrays.now) ≡ v) }
    ensures sound { IfOk result (λ o. (v : ViewOf) → o ≡ Some v → IsView v) }
{
    match build(alloc, &plan.tree, arrays) {
        Ok(view) => Ok(Some(view)),
        Err(BuildError::Refused { .. }) => Ok(None),
        Err(BuildError::Memory) => Err(AllocError),
    }
}

// The arrays of leaves, where there is one for each.
fn arrays_of(
    alloc: Global,
    leaves: &[SpecLeaf],
    takings: &[Option<u64>],
    openings: &Openings,
) -> Result<Option<Vec<ArrayRef>>, AllocError>
    requires leaves { AllByRecursion (IsSoundLeaf (mount ∷ [])) leaves.now }
    requires openings { AreKeptOf openings.now.events openings.now.opened openings.now.places }
    requires count { length takings.now ≡ length leaves.now }
    requires given { AreGiven openings.now.events (paired (bare leaves.now) takings.now) }
    ensures { IfOk result (λ arrays. all_refs
        (map (ref_of_leaf openings.now.events) (paired (bare leaves.now) takings.now))
        ≡ option_map (λ a. a.items) arrays) }
{
    let mut arrays = Vec::with_capacity(alloc, leaves.len())?;
    for place in 0..leaves.len() {
        let array = array_of(alloc, &leaves[place], takings[place], openings)?;
        match array {
            Some(array) => arrays.push(array)?,
            None => return Ok(None),
        }
    }
    Ok(Some(arrays))
}

// The array of a leaf.
fn array_of(
    alloc: Global,
    leaf: &SpecLeaf,
    taking: Option<u64>,
    openings: &Openings,
) -> Result<Option<ArrayRef>, AllocError>
    requires leaf { IsSoundLeaf (mount ∷ []) leaf.now }
    requires openings { AreKeptOf openings.now.events openings.now.opened openings.now.places }
    requires given { IsGivenAt openings.now.events (leaf_of [] leaf.now) taking }
    ensures { IfOk result (λ array. ref_of_leaf openings.now.events (told.taking (leaf_of [] leaf.now) taking)
        ≡ array) }
{
    match taking {
        Some(number) => given(alloc, number, openings.events.items()),
        None => lying(alloc, leaf, openings),
    }
}

// The array that the event of a number opens.
fn given(alloc: Global, number: u64, events: &[Event]) -> Result<Option<ArrayRef>, AllocError>
    requires { (info : InfoOf) × IsOpenedAt events.now number info × IsReference (reference_of info info.shape) }
    ensures { IfOk result (λ array. (info : InfoOf) → IsOpenedAt events.now number info
        → Some (reference_of info info.shape) ≡ array) }
{
    named(alloc, array_opened(events, number))
}

// The array that lies at the place of a leaf; one with numbers of its own has no place.
fn lying(
    alloc: Global,
    leaf: &SpecLeaf,
    openings: &Openings,
) -> Result<Option<ArrayRef>, AllocError>
    requires { AreKeptOf openings.now.events openings.now.opened openings.now.places }
    ensures { IfOk result (λ array. ref_of_leaf openings.now.events (told.taking (leaf_of [] leaf.now) None) ≡ array) }
{
    match leaf {
        SpecLeaf::Zarr { mount, path, .. } => lying_at(alloc, mount, path, openings),
        SpecLeaf::N5 { mount, path, .. } => lying_at(alloc, mount, path, openings),
        SpecLeaf::Zarr3 { mount, path, .. } => lying_at(alloc, mount, path, openings),
        SpecLeaf::Given { .. } => Ok(None),
    }
}

fn lying_at(
    alloc: Global,
    mount: &Name,
    path: &Name,
    openings: &Openings,
) -> Result<Option<ArrayRef>, AllocError>
    requires { AreKeptOf openings.now.events openings.now.opened openings.now.places }
    ensures { IfOk result (λ array. option_map ref_of (place.array_at openings.now.events (mount.now ++ 47 ∷ path.now))
        ≡ array) }
{
    let location = location_at(alloc, mount, path)?;
    lying_there(alloc, location.items(), openings)
}

fn location_at(alloc: Global, mount: &Name, path: &Name) -> Result<Name, AllocError>
    ensures { IfOk result (λ location. location ≡ mount.now ++ 47 ∷ path.now) }
{
    let mount = mount.items();
    let path = path.items();
    Ok(Name::wrap(format!(in alloc; "{mount}/{path}")?))
}

fn lying_there(
    alloc: Global,
    location: &str,
    openings: &Openings,
) -> Result<Option<ArrayRef>, AllocError>
    requires { AreKeptOf openings.now.events openings.now.opened openings.now.places }
    ensures { IfOk result (λ array. option_map ref_of (place.array_at openings.now.events location.now) ≡ array) }
{
    let events = openings.events.items();
    let opened = openings.opened.items();
    named_there(alloc, events, opened, &openings.places, location)
}

fn named_there(
    alloc: Global,
    events: &[Event],
    opened: &[u64],
    places: &Locations,
    location: &str,
) -> Result<Option<ArrayRef>, AllocError>
    requires { AreKeptOf events.now opened.now places.now }
    ensures { IfOk result (λ array. option_map ref_of (place.array_at events.now location.now) ≡ array) }
{
    let found = array_at(alloc, events, opened, places, location)?;
    match found {
        Some(info) => named(alloc, info),
        None => Ok(None),
    }
}

// How views name an array, as it was opened.
fn named(alloc: Global, info: &ArrayInfo) -> Result<Option<ArrayRef>, AllocError>
    requires { IsReference (reference_of info.now info.now.shape) }
    ensures { IfOk result (λ array. Some (reference_of info.now info.now.shape) ≡ array) }
{
    match array_ref(alloc, info, info.shape.items()) {
        Ok(array) => Ok(Some(array)),
        Err(e) => Err(e),
    }
}
