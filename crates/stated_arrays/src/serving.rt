// Giving the next number to the leaves of a line.
ghost use Rattle.std.specs.Prelude.{◌≡◌, ◌<◌, ◌∷◌, [], ◌++◌, IfOk, OnOk, vec_len};
ghost use Rattle.stated_arrays.specs.Lines.{IsSoundLine};
ghost use Rattle.stated_arrays.specs.Served.{AreArraysOf, IsServing};

use crate::arrays::{Served, StatedArrays};
use crate::lines::OpenLine;
use std::alloc::{AllocError, Global};
use transcript_cut::SpecLeaf;

/// Gives the next number to the first leaf that is left of a line and at whose place no array lies; those before it take none. Tells
/// whether an array may be opened so.
pub fn serve(
    alloc: Global,
    arrays: &mut StatedArrays,
    line: &mut OpenLine,
    owner: u32,
) -> Result<bool, AllocError>
    requires arrays { AreArraysOf arrays.old }
    requires sound { IsSoundLine line.old }
    ensures served { IfOk result (IsServing arrays.old arrays.new owner line.old line.new) }
    ensures arrays { OnOk result (AreArraysOf arrays.new) }
    ensures sound { IsSoundLine line.new }
{
    'leaves: while !line.rest.is_empty() {
        let leaf = next_leaf(line);
        match arrays.open(alloc, owner, leaf) {
            Ok(Served::There) => note(line, None)?,
            Ok(Served::New) => {
                note(line, Some(arrays.events.len() as u64))?;
                return Ok(true);
            }
            Ok(Served::Never) => return Ok(false),
            Err(e) => return Err(e),
        }
    }
    Ok(false)
}

// The first leaf that is left, which is left no more.
fn next_leaf(line: &mut OpenLine) -> SpecLeaf
    requires { 0 < vec_len line.old.rest }
    ensures parts { line.old.rest.items ≡ result ∷ line.new.rest.items }
    ensures takings { line.new.takings.items ≡ line.old.takings.items }
    ensures taken { line.new.taken ≡ line.old.taken }
{
    line.rest.remove(0)
}

// Notes which number the next leaf takes.
fn note(line: &mut OpenLine, number: Option<u64>) -> Result<(), AllocError>
    ensures takings { OnOk result (line.new.takings.items ≡ line.old.takings.items ++ number ∷ []) }
    ensures rest { line.new.rest.items ≡ line.old.rest.items }
    ensures taken { line.new.taken ≡ line.old.taken }
{
    line.takings.push(number)?;
    Ok(())
}
