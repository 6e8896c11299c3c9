// What a commit left is kept.
ghost use Rattle.std.specs.Prelude.{◌≡◌};
ghost use Rattle.std.specs.List.{AllByRecursion};
ghost use Rattle.chunk_plans.specs.Agreement.{Agrees, IsState, Opening};
ghost use Rattle.chunk_plans.specs.Writes.{IsSameButCache};
ghost use Rattle.commits.specs.Keeping.{IsChunkLeft, KeepsLeft, MayKeep};

use cells::Dense;
use chunk_cache::as_snapshot;
use chunk_plans::State;
use kv_face::KvStore;
use std::alloc::Global;
use std::marker::Model;

/// The cells that a commit leaves of a stored chunk. A contract sees the chunk and its cells.
#[derive(Drop)]
pub(crate) struct LeftCells<'a> {
    pub(crate) array: u64,
    /// The chunk's index.
    pub(crate) chunk: &'a [u64],
    pub(crate) cells: Dense,
}

impl<'a> Model for LeftCells<'a> {
    ghost use Rattle.commits.specs.Keeping.{LeftChunk};

    ghost Value = { LeftChunk };

    ghost view = { λ l. record { chunk = record { array = l.array; index = l.chunk.now }; cells = l.cells } };
}

/// Keeps the cells that the event of a number has left. There is no call of the store.
pub(crate) fn keep_left<K: KvStore>(
    alloc: Global,
    state: &mut State<K>,
    number: u64,
    left: Vec<LeftCells<'_>>,
)
    requires chunks { AllByRecursion (IsChunkLeft state.old.log.events) left.items }
    requires agrees { (opening : Opening) × (Agrees opening (K.seen state.old.store) state.old.log
        × AllByRecursion (MayKeep opening state.old.log number) left.items) }
    ensures same { IsSameButCache state.old.log state.new.log }
    ensures store { state.new.store ≡ state.old.store }
    ensures kept { KeepsLeft (K.seen state.old.store) state.old.log number left.entry.items
        (K.seen state.new.store) state.new.log }
{
    for one in left {
        keep(alloc, state, number, one);
    }
}

/// Keeps one of them. Where memory is wanting, it isn't kept.
fn keep<K: KvStore>(alloc: Global, state: &mut State<K>, number: u64, left: LeftCells<'_>)
    requires agrees { IsState (K.seen state.old.store) state.old.log }
    requires chunk { IsChunkLeft state.old.log.events left }
    ensures same { IsSameButCache state.old.log state.new.log }
    ensures store { state.new.store ≡ state.old.store }
    ensures kept { (opening : Opening) → Agrees opening (K.seen state.old.store) state.old.log
        → MayKeep opening state.old.log number left.entry → Agrees opening (K.seen state.new.store) state.new.log }
{
    let LeftCells {
        array,
        chunk,
        cells,
    } = left;
    let Ok(snapshot) = as_snapshot(alloc, number, cells) else {
        return;
    };
    let _ = state.settle(array, chunk, snapshot);
}
