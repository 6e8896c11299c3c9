// How a commit may be made, or why it may not.
ghost use Rattle.std.specs.Prelude.{IfOk, IsSome};
ghost use Rattle.std.specs.List.{AllByRecursion};
ghost use Rattle.history.specs.Arrays.{known_after};
ghost use Rattle.chunk_plans.specs.Agreement.{IsState};
ghost use Rattle.chunk_plans.specs.declared.write.ChunkWrite.{ChunkWrite as WriteOf};
ghost use Rattle.commits.specs.Ways.{IsLateOf, IsSplit, IsWay, TellsApart};
ghost use Rattle.commits.specs.Writes.{IsSizedWrite, stored_write_keys};

use crate::late::{Late, first_late};
use crate::outside::first_outside;
use crate::prepared::Prepared;
use crate::refused::CommitRefused;
use crate::stored::stored_changes;
use chunk_plans::{ChunkWrite, State};
use kv_face::KvStore;
use std::alloc::{AllocError, Global};

/// As one change of the store and one event, or as one of each for every key.
#[derive(Clone, Copy)]
pub(crate) enum Way {
    Whole,
    ByKeys,
}

/// A chunk that was read under repeatable read and has a later generation.
fn late_of<K: KvStore>(
    alloc: Global,
    state: &State<K>,
    p: &Prepared<'_>,
) -> Result<Option<Late>, AllocError>
    requires agrees { IsState (K.seen state.now.store) state.now.log }
    ensures { IfOk result (IsLateOf state.now.log p.now) }
{
    if !p.mode.repeatable_read {
        return Ok(None);
    }
    first_late(alloc, state, p.footprint)
}

/// How many stored keys are written, where the store can't change them together.
fn apart<K: KvStore>(
    alloc: Global,
    state: &State<K>,
    writes: &[ChunkWrite<'_>],
) -> Result<Option<u64>, AllocError>
    requires known { AllByRecursion (λ (w : WriteOf). IsSome (known_after state.now.log.events w.array)) writes.now }
    ensures { IfOk result (TellsApart ((K.seen state.now.store).prefixes)
        (stored_write_keys state.now.log.events writes.now)) }
{
    let changes = stored_changes(alloc, state, writes)?;
    if state.together(&changes) {
        return Ok(None);
    }
    Ok(Some(changes.len() as u64))
}

/// Whether the changes may be made one by one, where they can't be made together.
fn split<K: KvStore>(
    alloc: Global,
    state: &State<K>,
    p: &Prepared<'_>,
) -> Result<Way, CommitRefused>
    requires known { AllByRecursion (λ (w : WriteOf).
        IsSome (known_after state.now.log.events w.array)) p.now.writes.items }
    ensures { IsSplit ((K.seen state.now.store).prefixes) state.now.log p.now result }
{
    match apart(alloc, state, &p.writes)? {
        None => Ok(Way::Whole),
        Some(_) if !p.mode.atomic => Ok(Way::ByKeys),
        Some(keys) => Err(CommitRefused::NotAtomic { keys }),
    }
}

/// The first refusal that holds, or how the commit is made. Nothing is changed.
pub(crate) fn way_of<K: KvStore>(
    alloc: Global,
    state: &State<K>,
    p: &Prepared<'_>,
) -> Result<Way, CommitRefused>
    requires agrees { IsState (K.seen state.now.store) state.now.log }
    requires writes { AllByRecursion (IsSizedWrite state.now.log.events) p.now.writes.items }
    ensures { IsWay ((K.seen state.now.store).prefixes) state.now.log p.now result }
{
    if let Some(late) = late_of(alloc, state, p)? {
        return Err(CommitRefused::Conflict {
            key: late.key,
            read: late.read,
            now: late.now,
        });
    }
    if let Some(outside) = first_outside(state, &p.writes)? {
        return Err(CommitRefused::Shrunk {
            key: outside.key,
            now: outside.now,
        });
    }
    split(alloc, state, p)
}
