// Chunks that were decoded for a read, handed to the state.
ghost use Rattle.std.specs.Prelude.{◌≡◌, ◌++◌, length};
ghost use Rattle.history.specs.History.{History};
ghost use Rattle.shared_state.specs.Agreement.{Opening, Agrees, IsState};
ghost use Rattle.shared_state.specs.Fetches.{IsChunkOf};
ghost use Rattle.chunk_fetches.specs.Looking.{IsFresh, AreFresh, AreChunks};
ghost use Rattle.chunk_fetches.specs.Sources.{new_pieces};
ghost use Rattle.chunk_fetches.specs.Kept.{chunk_at};

use crate::looked::Fresh;
use crate::looking::{array_in, index_in};
use crate::source::{Source, is_new};
use kv_face::KvStore;
use shared_state::State;
use std::alloc::AllocError;
use transaction_cells::Piece;

/// Keeps what was decoded, where its generation is still the chunk's.
pub(crate) fn settle_all<K: KvStore>(
    state: &mut State<K>,
    pieces: &[Piece],
    sources: &[Source],
    fresh: &[Fresh],
) -> Result<(), AllocError>
    requires count { length sources.now ≡ length pieces.now }
    requires chunks { AreChunks state.old.log.events (new_pieces sources.now pieces.now) }
    requires fresh { (opening : Opening) × (early : History) × (more : History) × (state.old.log.events ≡ early ++ more)
        × AreFresh opening early (new_pieces sources.now pieces.now) fresh.now
        × Agrees opening (K.seen state.old.store) state.old.log }
    ensures events { state.new.log.events ≡ state.old.log.events }
    ensures kept { (opening : Opening) (early more : History) → state.old.log.events ≡ early ++ more
        → AreFresh opening early (new_pieces sources.now pieces.now) fresh.now
        → Agrees opening (K.seen state.old.store) state.old.log
        → Agrees opening (K.seen state.new.store) state.new.log }
{
    let mut next = 0;
    for (k, source) in sources.iter().enumerate() {
        if is_new(*source) {
            settle(state, pieces[k].id.items(), &fresh[next])?;
            next += 1;
        }
    }
    Ok(())
}

fn settle<K: KvStore>(state: &mut State<K>, id: &[u64], f: &Fresh) -> Result<(), AllocError>
    requires agrees { IsState (K.seen state.old.store) state.old.log }
    requires chunk { IsChunkOf state.old.log.events (chunk_at id.now) }
    ensures events { state.new.log.events ≡ state.old.log.events }
    ensures kept { (opening : Opening) (early more : History) → state.old.log.events ≡ early ++ more
        → IsFresh opening early (chunk_at id.now) f.now → Agrees opening (K.seen state.old.store) state.old.log
        → Agrees opening (K.seen state.new.store) state.new.log }
{
    if !f.is_new {
        return Ok(());
    }
    let snapshot = f.snapshot.share()?;
    state.settle(array_in(id), index_in(id), snapshot)
}
