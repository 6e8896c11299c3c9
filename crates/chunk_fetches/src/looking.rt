// Looks at the chunks that a read needs.
ghost use Rattle.std.specs.Prelude.{◌≡◌, ℕ, Some, Err, IfOk, OnOk, OnErr, length};
ghost use Rattle.history.specs.Chunks.{key_of};
ghost use Rattle.shared_state.specs.Agreement.{Opening, Agrees, IsState, KeepsAgreement};
ghost use Rattle.shared_state.specs.Fetches.{IsChunkOf};
ghost use Rattle.chunk_fetches.specs.Looking.{IsLookedAt, AreLookedAt, HasFailedAt, HasFailedAmong, AreChunks};
ghost use Rattle.chunk_fetches.specs.Sources.{new_pieces};
ghost use Rattle.chunk_fetches.specs.Refusals.{IsNotDamaged, IsSameRefusal};
ghost use Rattle.chunk_fetches.specs.Kept.{chunk_at};
ghost use Rattle.chunk_fetches.specs.declared.error.LookError.TheVariants as look_error;

use crate::error::LookError;
use crate::looked::Looked;
use crate::source::{Source, is_new};
use kv_face::KvStore;
use shared_state::{FetchError, Look, State};
use std::alloc::Global;
use transaction_cells::Piece;

/// The array's number in an id.
pub fn array_in(id: &[u64]) -> u64
    ensures { result ≡ (chunk_at id.now).array }
{
    match id.first() {
        Some(array) => *array,
        None => 0,
    }
}

/// The chunk's index in an id.
pub fn index_in(id: &[u64]) -> &[u64]
    ensures { result.now ≡ (chunk_at id.now).index }
{
    match id.split_first() {
        Some((_, index)) => index,
        None => id,
    }
}

/// A look at a chunk, with its key.
pub(crate) fn look_at<K: KvStore>(
    state: &mut State<K>,
    owner: u32,
    id: &[u64],
) -> Result<Looked, LookError>
    requires agrees { IsState (K.seen state.old.store) state.old.log }
    requires chunk { IsChunkOf state.old.log.events (chunk_at id.now) }
    ensures looked { IfOk result (λ l. (opening : Opening) → Agrees opening (K.seen state.old.store) state.old.log
        → IsLookedAt opening state.old.log.events (chunk_at id.now) l) }
    ensures events { OnOk result (state.new.log.events ≡ state.old.log.events) }
    ensures failed { (event : ℕ) → result ≡ Err (look_error.StoreFailed event)
        → HasFailedAt owner (chunk_at id.now) state.old.log.events state.new.log.events event }
    ensures memory { result ≡ Err look_error.Memory → state.new.log.events ≡ state.old.log.events }
    ensures kept { KeepsAgreement (K.seen state.old.store) state.old.log (K.seen state.new.store) state.new.log }
{
    match state.look(owner, array_in(id), index_in(id)) {
        Ok(look) => named(state, id, look),
        Err(e) => Err(unlooked(e)),
    }
}

fn named<K: KvStore>(state: &State<K>, id: &[u64], look: Look) -> Result<Looked, LookError>
    requires chunk { IsChunkOf state.now.log.events (chunk_at id.now) }
    ensures look { IfOk result (λ l. l.look ≡ look) }
    ensures key { IfOk result (λ l. key_of state.now.log.events (chunk_at id.now) ≡ Some l.key) }
    ensures err { OnErr result (result ≡ Err look_error.Memory) }
{
    match state.key(array_in(id), index_in(id)) {
        Ok(key) => Ok(Looked { key, look }),
        Err(_) => Err(LookError::Memory),
    }
}

fn unlooked(e: FetchError) -> LookError
    requires { IsNotDamaged e }
    ensures { IsSameRefusal e result }
{
    match e {
        FetchError::StoreFailed { event } => LookError::StoreFailed { event },
        FetchError::Damaged { .. } => unreachable!(),
        FetchError::Memory => LookError::Memory,
    }
}

/// Looks at the chunks that are to be fetched, in order, with the number of events by then.
pub(crate) fn look_all<K: KvStore>(
    alloc: Global,
    state: &mut State<K>,
    owner: u32,
    pieces: &[Piece],
    sources: &[Source],
) -> Result<(Vec<Looked>, u64), LookError>
    requires agrees { IsState (K.seen state.old.store) state.old.log }
    requires count { length sources.now ≡ length pieces.now }
    requires chunks { AreChunks state.old.log.events (new_pieces sources.now pieces.now) }
    ensures looked { IfOk result (λ seen_at. (opening : Opening)
        → Agrees opening (K.seen state.old.store) state.old.log
        → AreLookedAt opening state.old.log.events (new_pieces sources.now pieces.now) seen_at.0.items) }
    ensures mark { IfOk result (λ seen_at. seen_at.1 ≡ length state.new.log.events) }
    ensures events { OnOk result (state.new.log.events ≡ state.old.log.events) }
    ensures failed { (event : ℕ) → result ≡ Err (look_error.StoreFailed event)
        → HasFailedAmong owner (new_pieces sources.now pieces.now) state.old.log.events state.new.log.events event }
    ensures memory { result ≡ Err look_error.Memory → state.new.log.events ≡ state.old.log.events }
    ensures kept { KeepsAgreement (K.seen state.old.store) state.old.log (K.seen state.new.store) state.new.log }
{
    let mut looks = Vec::new(alloc);
    for (k, source) in sources.iter().enumerate() {
        if is_new(*source) {
            let look = look_at(state, owner, pieces[k].id.items())?;
            looks.push(look)?;
        }
    }
    let mark = state.events().len() as u64;
    Ok((looks, mark))
}
