// What a new shape leaves of each chunk that it cuts, in the changes of the store.
ghost use Rattle.std.specs.Prelude.{◌≡◌, ◌≢◌, ◌<◌, ◌+◌, ℕ, List, length, Some, Err, IfOk, IfErr, OnOk, true};
ghost use Rattle.kv_face.specs.Store.{keys_of};
ghost use Rattle.history.specs.Arrays.{Known, known_after, chunk_shape};
ghost use Rattle.chunk_plans.specs.Writes.{IsSameButCache};
ghost use Rattle.chunk_plans.specs.Agreement.{IsState, KeepsAgreement};
ghost use Rattle.chunk_plans.specs.Seen.{IsRead};
ghost use Rattle.state_resizes.specs.Cuts.{AreAsked, AreCut, AreFilled, bytes_at};
ghost use Rattle.state_resizes.specs.Refusals.{IsUnfilled};

use crate::cutting::left_of_cut;
use crate::keys::Asked;
use cells::{List, Sizes};
use chunk_plans::{FetchError, State};
use kv_face::{Change, KvStore};
use std::alloc::Global;

/// Puts bytes into the change at a place.
fn put(changes: &mut Vec<Change>, place: usize, bytes: Option<List<u8>>)
    requires { place < length changes.old.items }
    ensures keys { keys_of changes.new.items ≡ keys_of changes.old.items }
    ensures here { bytes_at changes.new.items place ≡ bytes }
    ensures others { (j : ℕ) → j ≢ place → bytes_at changes.new.items j ≡ bytes_at changes.old.items j }
{
    put_at(changes.as_mut_slice(), place, bytes);
}

fn put_at(changes: &mut [Change], place: usize, bytes: Option<List<u8>>)
    requires { place < length changes.old }
    ensures keys { keys_of changes.new ≡ keys_of changes.old }
    ensures here { bytes_at changes.new place ≡ bytes }
    ensures others { (j : ℕ) → j ≢ place → bytes_at changes.new j ≡ bytes_at changes.old j }
{
    changes[place].bytes = bytes;
}

/// The changes of a resize, each chunk's with what is left of it.
///
/// # Errors
/// As for `State::fetch`, of the first chunk that isn't read.
pub(crate) fn filled<K: KvStore>(
    alloc: Global,
    state: &mut State<K>,
    owner: u32,
    chunks: &[Sizes],
    asked: Asked,
) -> Result<Asked, FetchError>
    requires agrees { IsState (K.seen state.old.store) state.old.log }
    requires cut { AreCut state.old.log.events asked.plan.array asked.plan.shape chunks.now }
    requires asked { AreAsked state.old.log.events chunks.now asked }
    ensures plan { IfOk result (λ next. next.plan ≡ asked.plan) }
    ensures keys { IfOk result (λ next. keys_of next.changes.items ≡ keys_of asked.changes.items) }
    ensures metadata { IfOk result (λ next. bytes_at next.changes.items 0 ≡ bytes_at asked.changes.items 0) }
    ensures filled { IfOk result (λ next. AreFilled
        (K.seen state.old.store) state.old.log asked.plan.array asked.plan.shape chunks.now next.changes.items
        (length chunks.now)) }
    ensures same { OnOk result (IsSameButCache state.old.log state.new.log) }
    ensures read { IsRead (K.seen state.old.store) (K.seen state.new.store) }
    ensures told { (K.seen state.old.store).faults < (K.seen state.new.store).faults
        → (event : ℕ) × (result ≡ Err (FetchError.StoreFailed event)) }
    ensures refused { IfErr result (IsUnfilled owner asked.plan (K.seen state.old.store)
        (K.seen state.new.store) state.old.log state.new.log) }
    ensures kept { KeepsAgreement (K.seen state.old.store) state.old.log (K.seen state.new.store) state.new.log }
{
    let mut asked = asked;
    for place in 0..chunks.len() {
        match left_of_cut(alloc, state, owner, &asked.plan, chunks[place].items()) {
            Ok(bytes) => put(&mut asked.changes, place + 1, bytes),
            Err(error) => return Err(error),
        }
    }
    Ok(asked)
}
