// Writes of which a cell lies outside its array's shape now.
ghost use Rattle.std.specs.Prelude.{◌≡◌, ◌↔◌, Some, IfOk, IsTrue, false};
ghost use Rattle.std.specs.List.{AllByRecursion};
ghost use Rattle.history.specs.Arrays.{Known, known_after, chunk_shape, is_local};
ghost use Rattle.chunk_plans.specs.Laid.{IsStagedWithin};
ghost use Rattle.chunk_plans.specs.Agreement.{IsState};
ghost use Rattle.commits.specs.Outside.{IsFirstOutside, IsToldOf, TellsOutside};
ghost use Rattle.commits.specs.Writes.{IsSizedWrite};

use cells::Name;
use chunk_plans::{ChunkWrite, State, stays_within};
use kv_face::KvStore;
use std::alloc::AllocError;

/// An array of which a written cell lies outside its shape now: the key of its metadata, and the number of the event that gave it the
/// shape.
#[derive(Drop)]
pub(crate) struct Outside {
    pub(crate) key: Name,
    pub(crate) now: u64,
}

/// Whether each word that is staged for a chunk of a stored array is of a cell in the array's shape.
fn is_within<K: KvStore>(state: &State<K>, write: &ChunkWrite<'_>) -> bool
    requires agrees { IsState (K.seen state.now.store) state.now.log }
    requires write { IsSizedWrite state.now.log.events write.now }
    requires stored { (k : Known) → known_after state.now.log.events write.now.array ≡ Some k
        → is_local k.info.home ≡ false }
    ensures { (k : Known) → known_after state.now.log.events write.now.array ≡ Some k → IsTrue result
        ↔ IsStagedWithin k.shape (chunk_shape k.info) write.now.chunk.now write.now.staged.now }
{
    let form = state.form(write.array);
    stays_within(form.shape(), form.chunk_shape(), write.chunk, write.staged)
}

/// What is told of an array of which a written cell lies outside.
fn told<K: KvStore>(state: &State<K>, array: u64) -> Result<Option<Outside>, AllocError>
    requires agrees { IsState (K.seen state.now.store) state.now.log }
    requires stored { (k : Known) × (known_after state.now.log.events array ≡ Some k) × (is_local k.info.home ≡ false) }
    ensures { IfOk result (λ found. (k : Known) → known_after state.now.log.events array ≡ Some k
        → IsToldOf state.now.log.events array k found) }
{
    let key = state.metadata_key(array)?;
    let now = state.resized(array);
    Ok(Some(Outside { key, now }))
}

fn beyond<K: KvStore>(
    state: &State<K>,
    write: &ChunkWrite<'_>,
) -> Result<Option<Outside>, AllocError>
    requires agrees { IsState (K.seen state.now.store) state.now.log }
    requires write { IsSizedWrite state.now.log.events write.now }
    ensures { IfOk result (λ found. (k : Known) → known_after state.now.log.events write.now.array ≡ Some k
        → TellsOutside state.now.log.events k write.now found) }
{
    if state.is_local(write.array) || is_within(state, write) {
        return Ok(None);
    }
    told(state, write.array)
}

/// Of writes, the first with a word outside, if there is one.
pub(crate) fn first_outside<K: KvStore>(
    state: &State<K>,
    writes: &[ChunkWrite<'_>],
) -> Result<Option<Outside>, AllocError>
    requires agrees { IsState (K.seen state.now.store) state.now.log }
    requires writes { AllByRecursion (IsSizedWrite state.now.log.events) writes.now }
    ensures { IfOk result (IsFirstOutside state.now.log.events writes.now) }
{
    for write in writes {
        if let Some(found) = beyond(state, write)? {
            return Ok(Some(found));
        }
    }
    Ok(None)
}
