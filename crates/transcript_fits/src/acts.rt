// What the line at a place does.
ghost use Rattle.std.specs.Prelude.{◌≡◌, Some, None, IfOk, IsTrue};
ghost use Rattle.stated_history.specs.Acts.{IsSoundAct};
ghost use Rattle.stated_history.specs.Standings.{standing_of};
ghost use Rattle.stated_history.specs.declared.Act.{Act as ActOf};
ghost use Rattle.transcript_fits.specs.Judges.{IsJudge};
ghost use Rattle.transcript_fits.specs.Stands.{IsActHere, IsAlone, IsRead, IsWalkAt};

use crate::judge::Judge;
use stated_history::{Act, Walk, act_said};
use std::alloc::{AllocError, Global};

/// What the line at a place does, before which a walk stands: as it is kept, or as it reads.
///
/// # Errors
/// An allocation failed.
pub(crate) fn act_before(
    alloc: Global,
    judge: &Judge,
    walk: &Walk,
    place: usize,
) -> Result<Act, AllocError>
    requires judge { IsJudge judge.now }
    requires walk { IsWalkAt judge.now walk.now place }
    ensures act { IfOk result (IsActHere judge.now walk.now place) }
    ensures sound { IfOk result IsSoundAct }
{
    match copy_of(alloc, &judge.acts[place]) {
        Ok(Some(act)) => Ok(act),
        Ok(None) => act_said(
            alloc,
            &walk.standing,
            judge.source,
            &judge.source.said[place],
            None,
        ),
        Err(e) => Err(e),
    }
}

// The same again, if it may be copied.
fn copy_of(alloc: Global, act: &Option<Act>) -> Result<Option<Act>, AllocError>
    ensures { IfOk result (λ copy. (a : ActOf) → copy ≡ Some a → act.now ≡ Some a) }
{
    match act {
        Some(act) => act.copy(alloc),
        None => Ok(None),
    }
}

/// Whether what is kept of a line is a read, where the walk stands in no transaction: such a line leaves its session as it stands.
pub(crate) fn is_read_alone(kept: &Option<Act>, walk: &Walk) -> bool
    ensures { IsTrue result → IsAlone kept.now walk.now }
{
    match kept {
        Some(act) => is_alone(act, walk),
        None => false,
    }
}

fn is_alone(act: &Act, walk: &Walk) -> bool
    ensures { IsTrue result → IsRead act.now × ((standing_of walk.now.standing).transaction ≡ None) }
{
    if is_read(act) {
        stands_alone(walk)
    } else {
        false
    }
}

fn is_read(act: &Act) -> bool
    ensures { IsTrue result → IsRead act.now }
{
    match act {
        Act::Reads { view: _ } => true,
        _ => false,
    }
}

// Whether no transaction stands.
fn stands_alone(walk: &Walk) -> bool
    ensures { IsTrue result → (standing_of walk.now.standing).transaction ≡ None }
{
    walk.standing.transaction.is_none()
}
