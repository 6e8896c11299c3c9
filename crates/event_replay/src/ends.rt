// Which windows end at a number of events.
ghost use Rattle.std.specs.Prelude.{◌≡◌, ◌<◌, ◌≤◌, ◌+◌, ◌^◌, length, get_or, set, IfOk};
ghost use Rattle.std.specs.List.{AllByRecursion};
ghost use Rattle.event_replay.specs.Links.{AreEnds};
ghost use Rattle.event_replay.specs.declared.waiting.Waiting.{Waiting as WaitingOf};

use crate::waiting::{Waiting, waiting_at};
use std::alloc::{AllocError, Global};

/// For each number the last of some demands whose window ends there, and for each demand the one before it whose window ends there too.
/// Both count from 1; 0 where there is none.
#[derive(Drop)]
pub(crate) struct Ends {
    pub(crate) last: Vec<usize>,
    pub(crate) earlier: Vec<usize>,
}

/// Which windows end at each number up to this one.
pub(crate) fn ends_of(alloc: Global, waiting: &[Waiting], most: usize) -> Result<Ends, AllocError>
    requires few { most + 1 < 2 ^ 64 }
    requires within { AllByRecursion (λ (w : WaitingOf). w.upto ≤ most) waiting.now }
    ensures { IfOk result (λ ends. AreEnds waiting.now most ends.last.items ends.earlier.items) }
{
    let mut last = vec![in alloc; 0; most + 1]?;
    let mut earlier = Vec::new(alloc);
    for i in 0..waiting.len() {
        let number = waiting_at(waiting, i).upto as usize;
        earlier.push(linked(&mut last, number, i + 1))?;
    }
    Ok(Ends { last, earlier })
}

// Puts a link in place of another.
fn linked(last: &mut Vec<usize>, number: usize, link: usize) -> usize
    requires { number < length last.old.items }
    ensures old { result ≡ get_or last.old.items number 0 }
    ensures new { last.new.items ≡ set last.old.items number link }
{
    let old = last[number];
    last[number] = link;
    old
}
