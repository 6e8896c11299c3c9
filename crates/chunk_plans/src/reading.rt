// The chunk under staged words, as cells that nobody shares.
ghost use Rattle.std.specs.Prelude.{◌≡◌, ◌<◌, ℕ, List, Err, IfOk, OnOk};
ghost use Rattle.chunk_forms.specs.declared.form.Damage.{Damage as DamageOf};
ghost use Rattle.shared_state.specs.Agreement.{IsState, KeepsAgreement};
ghost use Rattle.shared_state.specs.Fetches.{IsAnswered, IsDamagedThere};
ghost use Rattle.shared_state.specs.Looks.{IsFailedLook};
ghost use Rattle.shared_state.specs.Seen.{IsRead};
ghost use Rattle.chunk_plans.specs.Writes.{IsWrite, IsSameButCache, chunk_of_write};

use crate::write::ChunkWrite;
use cells::{Dense, copy_name};
use chunk_forms::FormError;
use kv_face::KvStore;
use shared_state::{FetchError, Look, State, decode};
use std::alloc::Global;

/// The cells of a write's chunk as it is: a copy of those that are kept, else what its bytes are, which isn't kept, as the commit puts others.
///
/// # Errors
/// As for `State::fetch`.
pub(crate) fn cells_at<K: KvStore>(
    alloc: Global,
    state: &mut State<K>,
    owner: u32,
    write: &ChunkWrite<'_>,
) -> Result<Dense, FetchError>
    requires agrees { IsState (K.seen state.old.store) state.old.log }
    requires write { IsWrite state.old.log.events write.now }
    ensures answered { IfOk result (λ d. (generation : ℕ) × IsAnswered (K.seen state.old.store) state.old.log
        (chunk_of_write write.now) (record { generation = generation; cells = d })) }
    ensures same { OnOk result (IsSameButCache state.old.log state.new.log) }
    ensures read { IsRead (K.seen state.old.store) (K.seen state.new.store) }
    ensures failed { (event : ℕ) → result ≡ Err (FetchError.StoreFailed event)
        → IsFailedLook owner (chunk_of_write write.now) (K.seen state.old.store)
        (K.seen state.new.store) state.old.log state.new.log event }
    ensures told { (K.seen state.old.store).faults < (K.seen state.new.store).faults
        → (event : ℕ) × (result ≡ Err (FetchError.StoreFailed event)) }
    ensures damaged { (name : List ℕ) (cause : DamageOf) → result ≡ Err (FetchError.Damaged name cause)
        → (state.new.log ≡ state.old.log) × IsDamagedThere (K.seen state.old.store) state.old.log
        (chunk_of_write write.now) name cause }
    ensures memory { result ≡ Err FetchError.Memory → IsSameButCache state.old.log state.new.log }
    ensures kept { KeepsAgreement (K.seen state.old.store) state.old.log (K.seen state.new.store) state.new.log }
{
    match state.look(owner, write.array, write.chunk) {
        Ok(Look::Kept { snapshot, .. }) => match snapshot.cells().copy(alloc) {
            Ok(cells) => Ok(cells),
            Err(_) => Err(FetchError::Memory),
        },
        Ok(Look::Bytes { form, bytes, .. }) => match decode(alloc, &form, &bytes) {
            Ok(cells) => Ok(cells),
            Err(FormError::Damaged { cause }) => match copy_name(alloc, write.key.items()) {
                Ok(key) => Err(FetchError::Damaged { key, cause }),
                Err(_) => Err(FetchError::Memory),
            },
            Err(FormError::Memory) => Err(FetchError::Memory),
        },
        Err(e) => Err(e),
    }
}
