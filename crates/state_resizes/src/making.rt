// Making a new shape.
ghost use Rattle.std.specs.Prelude.{◌≡◌, ◌<◌, ◌+◌, ℕ, length, Some, Err, IfOk, OnOk, OnErr};
ghost use Rattle.kv_face.specs.Store.{Contents, after};
ghost use Rattle.chunk_plans.specs.Agreement.{IsState};
ghost use Rattle.chunk_plans.specs.Changing.{AreMade, IsNewShape, KeepsByShape, resized};
ghost use Rattle.chunk_plans.specs.Fetches.{HasFailed};
ghost use Rattle.chunk_plans.specs.Seen.{IsFrame, IsQuiet};

use crate::keys::Asked;
use chunk_plans::{ChangeError, State};
use kv_face::KvStore;

/// Makes room for the event of a new shape, and gives it by its changes.
pub(crate) fn make<K: KvStore>(
    state: &mut State<K>,
    owner: u32,
    asked: Asked,
) -> Result<u64, ChangeError>
    requires agrees { IsState (K.seen state.old.store) state.old.log }
    requires shape { IsNewShape state.old.log owner asked.plan asked.changes.items }
    requires made { AreMade (K.seen state.old.store) asked.changes.items }
    ensures number { IfOk result (λ n. n ≡ length state.old.log.events + 1) }
    ensures after { OnOk result (state.new.log ≡ resized state.old.log owner asked.plan) }
    ensures failed { (event : ℕ) → result ≡ Err (ChangeError.StoreFailed event)
        → HasFailed owner asked.plan.mount (K.seen state.old.store)
        (K.seen state.new.store) state.old.log state.new.log event }
    ensures told { (K.seen state.old.store).faults < (K.seen state.new.store).faults
        → (event : ℕ) × (result ≡ Err (ChangeError.StoreFailed event)) }
    ensures memory { result ≡ Err ChangeError.Memory → state.new.log ≡ state.old.log }
    ensures quiet { OnErr result (IsQuiet (K.seen state.old.store) (K.seen state.new.store)) }
    ensures frame { IsFrame (K.seen state.old.store) (K.seen state.new.store) }
    ensures kept { KeepsByShape (K.seen state.old.store) state.old.log owner asked.plan asked.changes.items
        (K.seen state.new.store) state.new.log }
{
    if state.make_room(1, &asked.plan.keys).is_err() {
        return Err(ChangeError::Memory);
    }
    let Asked { plan, changes } = asked;
    state.reshape(owner, plan, &changes)
}
