// Which keys a commit changes in the store, and whether it changes them together.
ghost use Rattle.std.specs.Prelude.{◌≡◌, IfOk, IsSome, ◌++◌, ◌∷◌, [], OnOk, if◌then◌else◌};
ghost use Rattle.std.specs.List.{AllByRecursion};
ghost use Rattle.kv_face.specs.Store.{keys_of};
ghost use Rattle.history.specs.Arrays.{known_after};
ghost use Rattle.history.specs.Counting.{is_stored};
ghost use Rattle.chunk_plans.specs.declared.write.ChunkWrite.{ChunkWrite as WriteOf};
ghost use Rattle.commits.specs.Writes.{stored_write_keys};

use cells::copy_name;
use chunk_plans::{ChunkWrite, State};
use kv_face::{Change, KvStore};
use std::alloc::{AllocError, Global};

/// Adds a change of the key of a write, without bytes, where a store holds the array.
fn add_stored<K: KvStore>(
    alloc: Global,
    state: &State<K>,
    changes: &mut Vec<Change>,
    write: &ChunkWrite<'_>,
) -> Result<(), AllocError>
    requires known { IsSome (known_after state.now.log.events write.now.array) }
    ensures { OnOk result (keys_of changes.new.items
        ≡ keys_of changes.old.items ++ stored_write_keys state.now.log.events (write.now ∷ [])) }
{
    if state.is_local(write.array) {
        return Ok(());
    }
    let key = copy_name(alloc, write.key.items())?;
    changes.push(Change { key, bytes: None })?;
    Ok(())
}

/// A change without bytes for the key of each write of a stored array.
pub(crate) fn stored_changes<K: KvStore>(
    alloc: Global,
    state: &State<K>,
    writes: &[ChunkWrite<'_>],
) -> Result<Vec<Change>, AllocError>
    requires known { AllByRecursion (λ (w : WriteOf). IsSome (known_after state.now.log.events w.array)) writes.now }
    ensures { IfOk result (λ changes. keys_of changes.items ≡ stored_write_keys state.now.log.events writes.now) }
{
    let mut changes = Vec::new(alloc);
    for write in writes {
        add_stored(alloc, state, &mut changes, write)?;
    }
    Ok(changes)
}
