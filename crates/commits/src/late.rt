// Chunks that were read and have later generations now.
ghost use Rattle.std.specs.Prelude.{◌≡◌, ◌<◌, Some, IfOk};
ghost use Rattle.chunk_plans.specs.Agreement.{IsState};
ghost use Rattle.commits.specs.Late.{IsFirstLate};

use cells::{Name, copy_name};
use chunk_plans::{Mark, State};
use kv_face::KvStore;
use std::alloc::{AllocError, Global};

/// A chunk that was read and has a later generation now.
#[derive(Drop)]
pub(crate) struct Late {
    pub(crate) key: Name,
    pub(crate) read: u64,
    pub(crate) now: u64,
}

fn later(alloc: Global, mark: &Mark, now: u64) -> Result<Option<Late>, AllocError>
    ensures { IfOk result (λ found. found ≡ Some
        (record { key = mark.now.key; read = mark.now.generation; now = now })) }
{
    Ok(Some(Late {
        key: copy_name(alloc, mark.key.items())?,
        read: mark.generation,
        now,
    }))
}

/// Of marks, the first whose chunk has a later generation, if there is one.
pub(crate) fn first_late<K: KvStore>(
    alloc: Global,
    state: &State<K>,
    marks: &[Mark],
) -> Result<Option<Late>, AllocError>
    requires agrees { IsState (K.seen state.now.store) state.now.log }
    ensures { IfOk result (IsFirstLate state.now.log marks.now) }
{
    for mark in marks {
        let now = state.generation(mark.key.items());
        if now > mark.generation {
            return later(alloc, mark, now);
        }
    }
    Ok(None)
}
