// The answers of events.
ghost use Rattle.std.specs.Prelude.{◌<◌, IfOk};
ghost use Rattle.std.specs.List.{AllByRecursion};
ghost use Rattle.transcript_cut.specs.declared.said.Said.{Said as SaidOf};
ghost use Rattle.transcript_cut.specs.Numbered.{IsNumbering};

use crate::rise::are_rising;
use crate::said::Said;
use crate::spots::spots_of_events;
use cells::List;
use std::alloc::{AllocError, Global};

/// For each event, from the first on, the spot among the answers of one that prints its number. `None` where the numbers that are printed
/// aren't those from 1 up to their count, each once, or don't rise within a session; the sessions are numbered below their count.
///
/// # Errors
/// An allocation failed.
pub fn number_events(
    alloc: Global,
    sessions: usize,
    said: &[Said],
) -> Result<Option<List<u64>>, AllocError>
    requires { AllByRecursion (λ (s : SaidOf). s.line.session < sessions) said.now }
    ensures { IfOk result (IsNumbering said.now) }
{
    let rising = are_rising(alloc, sessions, said)?;
    if rising {
        spots_of_events(alloc, said)
    } else {
        Ok(None)
    }
}
