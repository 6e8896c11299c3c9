// The plans of all writes of a commit.
ghost use Rattle.std.specs.Prelude.{◌≡◌, ◌+◌, ◌*◌, ◌<◌, ◌^◌, ℕ, List, Ok, Err, IfOk, OnOk, length};
ghost use Rattle.std.specs.List.{AllByRecursion};
ghost use Rattle.chunk_forms.specs.declared.form.Damage.{Damage as DamageOf};
ghost use Rattle.chunk_plans.specs.Seen.{IsRead};
ghost use Rattle.chunk_plans.specs.Agreement.{IsState, KeepsAgreement};
ghost use Rattle.chunk_plans.specs.Writes.{IsSameButCache, IsWrite};
ghost use Rattle.commits.specs.Planning.{ArePlannedBy, HasFailedFor, IsFirstDamaged, write_arrays};

use chunk_plans::{ChunkWrite, FetchError, Planned, State, plan_write};
use kv_face::KvStore;
use std::alloc::Global;

/// What a commit leaves of each chunk that it writes. `number` is that of the event that puts the first of them, and `step` how many
/// numbers there are from one to the next.
pub(crate) fn plan_writes<'a, K: KvStore>(
    alloc: Global,
    state: &mut State<K>,
    owner: u32,
    number: u64,
    step: u64,
    writes: Vec<ChunkWrite<'a>>,
) -> Result<Vec<Planned<'a>>, FetchError>
    requires agrees { IsState (K.seen state.old.store) state.old.log }
    requires writes { AllByRecursion (IsWrite state.old.log.events) writes.items }
    requires numbers { number + step * length writes.items < 2 ^ 64 }
    ensures plans { IfOk result (λ plans. ArePlannedBy
        (K.seen state.old.store) state.old.log number step writes.entry.items plans.items) }
    ensures same { OnOk result (IsSameButCache state.old.log state.new.log) }
    ensures read { IsRead (K.seen state.old.store) (K.seen state.new.store) }
    ensures failed { (event : ℕ) → result ≡ Err (FetchError.StoreFailed event)
        → HasFailedFor owner (write_arrays writes.entry.items) (K.seen state.old.store)
        (K.seen state.new.store) state.old.log.events state.new.log.events event }
    ensures told { (K.seen state.old.store).faults < (K.seen state.new.store).faults
        → (event : ℕ) × (result ≡ Err (FetchError.StoreFailed event)) }
    ensures damaged { (name : List ℕ) (cause : DamageOf) → result ≡ Err (FetchError.Damaged name cause)
        → (state.new.log.events ≡ state.old.log.events)
        × IsFirstDamaged (K.seen state.old.store) state.old.log number step writes.entry.items name cause }
    ensures memory { result ≡ Err FetchError.Memory → state.new.log.events ≡ state.old.log.events }
    ensures kept { KeepsAgreement (K.seen state.old.store) state.old.log (K.seen state.new.store) state.new.log }
{
    let mut plans = Vec::with_capacity(alloc, writes.len())?;
    let mut next = number;
    for write in writes {
        let plan = plan_write(alloc, state, owner, next, write)?;
        plans.push_reserved(plan);
        next += step;
    }
    Ok(plans)
}
