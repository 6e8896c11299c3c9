// Making a commit by its plans.
ghost use Rattle.std.specs.Prelude.{◌≡◌, ◌<◌, ◌+◌, ℕ, List, length, Some, Ok, Err, IfOk, OnOk, OnErr, IsSome};
ghost use Rattle.std.specs.List.{AllByRecursion};
ghost use Rattle.kv_face.specs.Store.{Contents, after};
ghost use Rattle.history.specs.Arrays.{known_after};
ghost use Rattle.chunk_plans.specs.Recorded.{done_event};
ghost use Rattle.chunk_plans.specs.Seen.{IsFrame, IsQuiet};
ghost use Rattle.chunk_plans.specs.Agreement.{IsState};
ghost use Rattle.chunk_plans.specs.Changing.{AreMade, IsDeed, KeepsByDeed, committed};
ghost use Rattle.chunk_plans.specs.Fetches.{HasFailed};
ghost use Rattle.chunk_plans.specs.Writes.{IsSameButCache};
ghost use Rattle.commits.specs.Plans.{ArePlans, ArePartsOf, IsStateByPlans, KeepsByPlans, changes_of, committed_by, deed_of};
ghost use Rattle.chunk_plans.specs.declared.plan.Planned.{Planned as PlannedOf};
ghost use Rattle.chunk_plans.specs.declared.HeldCells.{HeldCells as HeldCellsOf};

use crate::keeping::keep_left;
use crate::parts::{Parts, parted};
use cells::Name;
use chunk_plans::{ChangeError, Commit, Deed, Planned, State};
use kv_face::{Change, KvStore};
use std::alloc::Global;

/// Makes a commit, or one key of it, by what it leaves of each chunk that it touches: in one call of the store, or in none where no
/// stored chunk is touched. Gives the number of its event. What is left of stored chunks is kept, as far as there is memory.
///
/// # Errors
/// `StoreFailed` where the store failed, which one event more tells; `Memory` where memory was wanting. Nothing was changed then.
pub(crate) fn commit_planned<K: KvStore>(
    alloc: Global,
    state: &mut State<K>,
    owner: u32,
    mount: Name,
    commit: Commit,
    plans: Vec<Planned<'_>>,
) -> Result<u64, ChangeError>
    requires agrees { IsStateByPlans (K.seen state.old.store) state.old.log owner commit plans.items }
    requires plans { ArePlans state.old.log (done_event owner commit) plans.items }
    requires made { AreMade (K.seen state.old.store) (changes_of plans.items) }
    ensures number { IfOk result (λ n. n ≡ length state.old.log.events + 1) }
    ensures after { OnOk result (IsSameButCache
        (committed_by state.old.log owner commit plans.entry.items) state.new.log) }
    ensures done { OnOk result ((m : Contents) → (K.seen state.old.store).contents ≡ Some m
        → (K.seen state.new.store).contents ≡ Some (after m (changes_of plans.entry.items))) }
    ensures failed { (event : ℕ) → result ≡ Err (ChangeError.StoreFailed event)
        → HasFailed owner mount (K.seen state.old.store) (K.seen state.new.store) state.old.log state.new.log event }
    ensures told { (K.seen state.old.store).faults < (K.seen state.new.store).faults
        → (event : ℕ) × (result ≡ Err (ChangeError.StoreFailed event)) }
    ensures memory { result ≡ Err ChangeError.Memory → state.new.log ≡ state.old.log }
    ensures uncalled { length (changes_of plans.entry.items) ≡ 0 → state.new.store ≡ state.old.store }
    ensures quiet { OnErr result (IsQuiet (K.seen state.old.store) (K.seen state.new.store)) }
    ensures frame { IsFrame (K.seen state.old.store) (K.seen state.new.store) }
    ensures kept { KeepsByPlans (K.seen state.old.store) state.old.log owner commit plans.entry.items
        (K.seen state.new.store) state.new.log }
{
    match parted(alloc, plans) {
        Ok(parts) => commit_parts(alloc, state, owner, mount, commit, parts),
        Err(_) => Err(ChangeError::Memory),
    }
}

/// The same by the parts of the plans.
fn commit_parts<K: KvStore>(
    alloc: Global,
    state: &mut State<K>,
    owner: u32,
    mount: Name,
    commit: Commit,
    parts: Parts<'_>,
) -> Result<u64, ChangeError>
    requires parts { (plans : List PlannedOf) × ArePlans state.old.log (done_event owner commit) plans
        × ArePartsOf plans parts × IsStateByPlans (K.seen state.old.store) state.old.log owner commit plans }
    requires made { AreMade (K.seen state.old.store) parts.changes.items }
    ensures number { IfOk result (λ n. n ≡ length state.old.log.events + 1) }
    ensures after { OnOk result (IsSameButCache
        (committed state.old.log owner (deed_of mount commit parts.entry)) state.new.log) }
    ensures done { OnOk result ((m : Contents) → (K.seen state.old.store).contents ≡ Some m
        → (K.seen state.new.store).contents ≡ Some (after m parts.entry.changes.items)) }
    ensures failed { (event : ℕ) → result ≡ Err (ChangeError.StoreFailed event)
        → HasFailed owner mount (K.seen state.old.store) (K.seen state.new.store) state.old.log state.new.log event }
    ensures told { (K.seen state.old.store).faults < (K.seen state.new.store).faults
        → (event : ℕ) × (result ≡ Err (ChangeError.StoreFailed event)) }
    ensures memory { result ≡ Err ChangeError.Memory → state.new.log ≡ state.old.log }
    ensures uncalled { length parts.entry.changes.items ≡ 0 → state.new.store ≡ state.old.store }
    ensures quiet { OnErr result (IsQuiet (K.seen state.old.store) (K.seen state.new.store)) }
    ensures frame { IsFrame (K.seen state.old.store) (K.seen state.new.store) }
    ensures kept { (plans : List PlannedOf) → ArePlans state.old.log (done_event owner commit) plans
        → ArePartsOf plans parts.entry → KeepsByPlans (K.seen state.old.store) state.old.log owner commit plans
        (K.seen state.new.store) state.new.log }
{
    let Parts {
        changes,
        keys,
        cells,
        left,
    } = parts;
    let deed = Deed {
        mount,
        commit,
        keys,
        cells,
    };
    match commit_deed(state, owner, deed, changes) {
        Ok(number) => {
            keep_left(alloc, state, number, left);
            Ok(number)
        }
        Err(error) => Err(error),
    }
}

/// The same without what is kept.
fn commit_deed<K: KvStore>(
    state: &mut State<K>,
    owner: u32,
    deed: Deed,
    changes: Vec<Change>,
) -> Result<u64, ChangeError>
    requires agrees { IsState (K.seen state.old.store) state.old.log }
    requires deed { IsDeed state.old.log owner deed }
    requires made { AreMade (K.seen state.old.store) changes.items }
    requires known { AllByRecursion (λ (c : HeldCellsOf).
        IsSome (known_after state.old.log.events c.array)) deed.cells.items }
    ensures number { IfOk result (λ n. n ≡ length state.old.log.events + 1) }
    ensures after { OnOk result (state.new.log ≡ committed state.old.log owner deed) }
    ensures done { OnOk result ((m : Contents) → (K.seen state.old.store).contents ≡ Some m
        → (K.seen state.new.store).contents ≡ Some (after m changes.items)) }
    ensures failed { (event : ℕ) → result ≡ Err (ChangeError.StoreFailed event)
        → HasFailed owner deed.mount (K.seen state.old.store)
        (K.seen state.new.store) state.old.log state.new.log event }
    ensures told { (K.seen state.old.store).faults < (K.seen state.new.store).faults
        → (event : ℕ) × (result ≡ Err (ChangeError.StoreFailed event)) }
    ensures memory { result ≡ Err ChangeError.Memory → state.new.log ≡ state.old.log }
    ensures uncalled { length changes.items ≡ 0 → state.new.store ≡ state.old.store }
    ensures quiet { OnErr result (IsQuiet (K.seen state.old.store) (K.seen state.new.store)) }
    ensures frame { IsFrame (K.seen state.old.store) (K.seen state.new.store) }
    ensures kept { KeepsByDeed (K.seen state.old.store) state.old.log owner deed changes.items
        (K.seen state.new.store) state.new.log }
{
    if state.make_room(1, &deed.keys).is_err() {
        return Err(ChangeError::Memory);
    }
    state.commit(owner, deed, changes)
}
