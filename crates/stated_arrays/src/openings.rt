// The openings that a transcript states.
ghost use Rattle.std.specs.Prelude.{◌≡◌, ◌++◌, IfOk, ℕ, List, length, map};
ghost use Rattle.std.specs.List.{AllByRecursion};
ghost use Rattle.transcript_cut.specs.declared.said.Said.{Said as SaidOf};
ghost use Rattle.transcript_cut.specs.Cuttings.{lines_kept};
ghost use Rattle.transcript_cut.specs.Keeping.{AreCommandsOf};
ghost use Rattle.transcript_cut.specs.Spans.{IsPlaced};
ghost use Rattle.stated_arrays.specs.Lines.{IsSoundLine, IsFreshLine};
ghost use Rattle.stated_arrays.specs.Openings.{IsNumberedCut, IsStating};
ghost use Rattle.stated_arrays.specs.Served.{AreArraysOf};
ghost use Rattle.stated_arrays.specs.Stating.{IsExactTable, IsStatingOf, IsWholeFor, all_takings};

use crate::arrays::StatedArrays;
use crate::lines::{OpenLine, keep_lines};
use crate::stating::state_all;
use cells::List;
use history::Event;
use locations::Locations;
use std::alloc::{AllocError, Global};
use transcript_cut::{Command, Said};

/// The arrays that a transcript states.
#[derive(Drop)]
pub struct Openings {
    /// The event at each number, from 1 on: an opening, or, in place of a commit or a failed call, a failed call.
    pub events: List<Event>,
    /// For each array, by its number, that of the event that opened it.
    pub opened: List<u64>,
    /// Where arrays lie.
    pub places: Locations,
    /// For each line that isn't blank and each leaf that it opens, the number that the leaf takes, if it takes one.
    pub takings: List<List<Option<u64>>>,
}

/// Which arrays a transcript states that is cut into these answers, whose numbers stand at these spots, where this is kept of the lines; `None`
/// where no history is stated in which each event may follow those before it. A history may be stated only if `Some` is given, and has the outline that
/// is given then.
///
/// # Errors
/// An allocation failed.
pub fn state_openings(
    alloc: Global,
    scripts: &[List<u8>],
    said: &[Said],
    spots: &[u64],
    commands: &[Option<Command>],
) -> Result<Option<Openings>, AllocError>
    requires numbered { IsNumberedCut scripts.now said.now spots.now }
    requires commands { AreCommandsOf (lines_kept scripts.now said.now) commands.now }
    ensures { IfOk result (IsStating scripts.now said.now) }
{
    let mut lines = keep_lines(alloc, scripts, said, commands)?;
    state_lines(alloc, lines.as_mut_slice(), said, spots)
}

// The same by what each line opens, of which nothing was given a number yet.
fn state_lines(
    alloc: Global,
    lines: &mut [OpenLine],
    said: &[Said],
    spots: &[u64],
) -> Result<Option<Openings>, AllocError>
    requires sound { AllByRecursion IsSoundLine lines.old }
    requires fresh { AllByRecursion IsFreshLine lines.old }
    requires count { length lines.old ≡ length said.now }
    requires table { IsExactTable said.now spots.now }
    ensures { IfOk result (IsStatingOf said.now lines.old) }
{
    let mut arrays = StatedArrays::none(alloc);
    let is_stated = state_all(alloc, &mut arrays, lines, said, spots)?;
    if !is_stated {
        return Ok(None);
    }
    whole(alloc, arrays, lines)
}

// The same behind the last number.
fn whole(
    alloc: Global,
    arrays: StatedArrays,
    lines: &[OpenLine],
) -> Result<Option<Openings>, AllocError>
    requires { AreArraysOf arrays }
    ensures { IfOk result (IsWholeFor lines.now arrays.events.items) }
{
    match finished(alloc, arrays, lines) {
        Ok(openings) => Ok(Some(openings)),
        Err(e) => Err(e),
    }
}

// What was stated, with the numbers that leaves take.
fn finished(alloc: Global, arrays: StatedArrays, lines: &[OpenLine]) -> Result<Openings, AllocError>
    ensures events { IfOk result (λ o. o.events ≡ arrays.events.items) }
    ensures opened { IfOk result (λ o. o.opened ≡ arrays.opened.items) }
    ensures places { IfOk result (λ o. o.places ≡ arrays.places) }
    ensures takings { IfOk result (λ o. o.takings ≡ map all_takings lines.now) }
{
    match takings_of(alloc, lines) {
        Ok(takings) => Ok(openings_of(arrays, takings)),
        Err(e) => Err(e),
    }
}

fn openings_of(arrays: StatedArrays, takings: Vec<List<Option<u64>>>) -> Openings
    ensures events { result.events ≡ arrays.events.items }
    ensures opened { result.opened ≡ arrays.opened.items }
    ensures places { result.places ≡ arrays.places }
    ensures takings { result.takings ≡ takings.items }
{
    let StatedArrays {
        events,
        opened,
        places,
    } = arrays;
    Openings {
        events: List::wrap(events),
        opened: List::wrap(opened),
        places,
        takings: List::wrap(takings),
    }
}

// The numbers that leaves take, line by line; a leaf that is left takes none.
fn takings_of(alloc: Global, lines: &[OpenLine]) -> Result<Vec<List<Option<u64>>>, AllocError>
    ensures { IfOk result (λ takings. takings.items ≡ map all_takings lines.now) }
{
    let mut all = Vec::with_capacity(alloc, lines.len())?;
    for line in lines {
        let takings = takings_in(alloc, line)?;
        all.push(List::wrap(takings))?;
    }
    Ok(all)
}

fn takings_in(alloc: Global, line: &OpenLine) -> Result<Vec<Option<u64>>, AllocError>
    ensures { IfOk result (λ takings. takings.items ≡ all_takings line.now) }
{
    let mut numbers = Vec::from_slice(alloc, line.takings.as_slice())?;
    for _leaf in &line.rest {
        numbers.push(None)?;
    }
    Ok(numbers)
}
