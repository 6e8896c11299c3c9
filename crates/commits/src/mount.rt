// The mount that a failed commit is told of.
ghost use Rattle.std.specs.Prelude.{IfOk, IsSome};
ghost use Rattle.std.specs.List.{AllByRecursion};
ghost use Rattle.history.specs.Arrays.{known_after};
ghost use Rattle.chunk_plans.specs.declared.write.ChunkWrite.{ChunkWrite as WriteOf};
ghost use Rattle.commits.specs.Planning.{IsMountFor};

use cells::Name;
use chunk_plans::{ChunkWrite, State};
use kv_face::KvStore;
use std::alloc::{AllocError, Global};

/// The mount of the first of the writes of which a store holds the array; no text where there is none.
pub(crate) fn mount_of_writes<K: KvStore>(
    alloc: Global,
    state: &State<K>,
    writes: &[ChunkWrite<'_>],
) -> Result<Name, AllocError>
    requires known { AllByRecursion (λ (w : WriteOf). IsSome (known_after state.now.log.events w.array)) writes.now }
    ensures { IfOk result (IsMountFor state.now.log.events writes.now) }
{
    for write in writes {
        if !state.is_local(write.array) {
            return state.mount_name(write.array);
        }
    }
    Ok(Name::wrap(String::new(alloc)))
}
