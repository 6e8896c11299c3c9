// The events at all numbers.
ghost use Rattle.std.specs.Prelude.{◌≡◌, ◌∷◌, [], ◌++◌, IfOk, OnOk, length};
ghost use Rattle.std.specs.List.{AllByRecursion, slice_get};
ghost use Rattle.stated_arrays.specs.Lines.{IsSoundLine, IsFreshLine};
ghost use Rattle.stated_arrays.specs.Served.{AreArraysOf};
ghost use Rattle.stated_arrays.specs.Stating.{IsExactTable, IsStatedNext, IsStatingAll, other_event, is_number};

use crate::arrays::StatedArrays;
use crate::lines::OpenLine;
use crate::serving::serve;
use std::alloc::{AllocError, Global};
use transcript_cut::Said;

/// States the event at each number, by the answers that print them; tells whether there is one at each.
pub fn state_all(
    alloc: Global,
    arrays: &mut StatedArrays,
    lines: &mut [OpenLine],
    said: &[Said],
    spots: &[u64],
) -> Result<bool, AllocError>
    requires arrays { AreArraysOf arrays.old }
    requires first { arrays.old.events.items ≡ [] }
    requires sound { AllByRecursion IsSoundLine lines.old }
    requires fresh { AllByRecursion IsFreshLine lines.old }
    requires count { length lines.old ≡ length said.now }
    requires table { IsExactTable said.now spots.now }
    ensures stated { IfOk result (IsStatingAll said.now lines.old lines.new arrays.new) }
    ensures arrays { OnOk result (AreArraysOf arrays.new) }
{
    for spot in spots {
        let place = *spot as usize;
        let is_stated = state_next(alloc, arrays, &mut lines[place], &said[place])?;
        if !is_stated {
            return Ok(false);
        }
    }
    Ok(true)
}

// States the event at the next number, which this answer prints.
fn state_next(
    alloc: Global,
    arrays: &mut StatedArrays,
    line: &mut OpenLine,
    said: &Said,
) -> Result<bool, AllocError>
    requires arrays { AreArraysOf arrays.old }
    requires sound { IsSoundLine line.old }
    ensures stated { IfOk result (IsStatedNext said.now arrays.old arrays.new line.old line.new) }
    ensures arrays { OnOk result (AreArraysOf arrays.new) }
    ensures sound { IsSoundLine line.new }
{
    let owner = said.line.session;
    let number = arrays.events.len() as u64 + 1;
    let next = next_number(said.numbers.opened.items(), line.taken);
    if is_number(next, number) {
        line.taken += 1;
        return serve(alloc, arrays, line, owner);
    }
    add_other(alloc, arrays, said, number)?;
    Ok(true)
}

// The next of an answer's numbers of new arrays, of which so many were taken.
fn next_number(opened: &[u64], taken: usize) -> Option<u64>
    ensures { result ≡ slice_get opened.now taken }
{
    if taken < opened.len() {
        Some(opened[taken])
    } else {
        None
    }
}

// The event at a number that isn't that of a new array.
fn add_other(
    alloc: Global,
    arrays: &mut StatedArrays,
    said: &Said,
    number: u64,
) -> Result<(), AllocError>
    requires { AreArraysOf arrays.old }
    ensures events { OnOk result (arrays.new.events.items
        ≡ arrays.old.events.items ++ other_event said.now number ∷ []) }
    ensures arrays { OnOk result (AreArraysOf arrays.new) }
{
    if is_number(said.numbers.failed, number) {
        arrays.add_failed(alloc, said.line.session)
    } else {
        arrays.add_done(alloc, said.line.session)
    }
}

// Whether there is a number, and it is this one.
fn is_number(found: Option<u64>, number: u64) -> bool
    ensures { result ≡ is_number found number }
{
    match found {
        Some(other) => other == number,
        None => false,
    }
}
