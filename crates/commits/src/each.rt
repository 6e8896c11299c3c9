// A commit that is one change of the store, and one event, for each key.
ghost use Rattle.std.specs.Prelude.{◌≡◌, ◌∷◌, ◌++◌, ◌+◌, ◌<◌, ℕ, [], IfOk, OnOk, IsSome, Some, None, Err, length, filter};
ghost use Rattle.std.specs.List.{AllByRecursion};
ghost use Rattle.history.specs.Arrays.{known_after};
ghost use Rattle.history.specs.Commit.{is_write};
ghost use Rattle.chunk_plans.specs.Leaving.{HasNumber};
ghost use Rattle.chunk_plans.specs.Seen.{IsFrame};
ghost use Rattle.commits.specs.Plans.{keys_of};
ghost use Rattle.chunk_plans.specs.Writes.{IsWrite};
ghost use Rattle.commits.specs.Keyed.{AreKeyPlans, IsKeyPlan, IsMadeEach, IsMountAt, IsStateByKey, IsStateByKeys, KeepsByKey, KeepsByKeys, each_event, key_event, plan_arrays};
ghost use Rattle.commits.specs.Made.{IsMade};
ghost use Rattle.commits.specs.Planning.{HasFailedFor};
ghost use Rattle.commits.specs.Prepared.{AreWrites, write_keys};
ghost use Rattle.commits.specs.Refused.{HasStoreFailed};
ghost use Rattle.commits.specs.Right.{IsStateByCommit, KeepsByCommit};

use crate::making::commit_planned;
use crate::planning::plan_writes;
use crate::refused::{CommitRefused, unmade, unplanned};
use cells::{List, Name, copy_name};
use chunk_plans::{ChangeError, ChunkWrite, Commit, Planned, State};
use history::{Mode, Ops};
use kv_face::KvStore;
use std::alloc::{AllocError, Global};

/// A transaction of which each key is committed by itself: the operations of the first event, and the writes among them.
#[derive(Drop)]
pub(crate) struct ByKeys {
    pub(crate) line: u64,
    pub(crate) mode: Mode,
    pub(crate) ops: Ops,
    pub(crate) writes: Ops,
}

/// The mount of an array; no text where no store holds it.
fn mount_at<K: KvStore>(alloc: Global, state: &State<K>, array: u64) -> Result<Name, AllocError>
    requires known { IsSome (known_after state.now.log.events array) }
    ensures { IfOk result (IsMountAt state.now.log.events array) }
{
    if state.is_local(array) {
        return Ok(Name::wrap(String::new(alloc)));
    }
    state.mount_name(array)
}

/// The commit of one key.
fn keyed(alloc: Global, line: u64, mode: Mode, ops: Ops, key: &Name) -> Result<Commit, AllocError>
    ensures { IfOk result (λ c. c ≡ record { line = line; mode = mode; ops = ops; key = Some key.now }) }
{
    let key = copy_name(alloc, key.items())?;
    Ok(Commit {
        line,
        mode,
        ops,
        key: Some(key),
    })
}

/// The one plan as a list.
fn alone<'a>(alloc: Global, plan: Planned<'a>) -> Result<Vec<Planned<'a>>, AllocError>
    ensures { IfOk result (λ plans. plans.items ≡ plan.entry ∷ []) }
{
    let mut plans = Vec::with_capacity(alloc, 1)?;
    plans.push_reserved(plan);
    Ok(plans)
}

/// Makes the event of one key, by its plan.
fn make_one<K: KvStore>(
    alloc: Global,
    state: &mut State<K>,
    owner: u32,
    line: u64,
    mode: Mode,
    ops: Ops,
    plan: Planned<'_>,
) -> Result<u64, ChangeError>
    requires agrees { IsStateByKey (K.seen state.old.store) state.old.log owner line mode ops plan }
    requires plan { IsKeyPlan state.old.log.events plan }
    requires numbered { HasNumber (length state.old.log.events + 1) plan.left }
    ensures number { IfOk result (λ n. n ≡ length state.old.log.events + 1) }
    ensures after { OnOk result (state.new.log.events
        ≡ state.old.log.events ++ key_event owner line mode ops plan.entry.key ∷ []) }
    ensures failed { (event : ℕ) → result ≡ Err (ChangeError.StoreFailed event)
        → HasFailedFor owner (plan.entry.array ∷ []) (K.seen state.old.store)
        (K.seen state.new.store) state.old.log.events state.new.log.events event }
    ensures told { (K.seen state.old.store).faults < (K.seen state.new.store).faults
        → (event : ℕ) × (result ≡ Err (ChangeError.StoreFailed event)) }
    ensures memory { result ≡ Err ChangeError.Memory → state.new.log.events ≡ state.old.log.events }
    ensures frame { IsFrame (K.seen state.old.store) (K.seen state.new.store) }
    ensures kept { KeepsByKey (K.seen state.old.store) state.old.log owner line mode ops plan.entry
        (K.seen state.new.store) state.new.log }
{
    let Ok(mount) = mount_at(alloc, state, plan.array) else {
        return Err(ChangeError::Memory);
    };
    let Ok(commit) = keyed(alloc, line, mode, ops, &plan.key) else {
        return Err(ChangeError::Memory);
    };
    let Ok(plans) = alone(alloc, plan) else {
        return Err(ChangeError::Memory);
    };
    commit_planned(alloc, state, owner, mount, commit, plans)
}

/// Makes the events of all keys, one after another. Room for the answer is made before.
fn make_each<K: KvStore>(
    alloc: Global,
    state: &mut State<K>,
    owner: u32,
    by: ByKeys,
    plans: Vec<Planned<'_>>,
) -> Result<List<u64>, CommitRefused>
    requires agrees { IsStateByKeys (K.seen state.old.store) state.old.log owner by.line by.mode by.ops plans.items }
    requires plans { AreKeyPlans state.old.log.events plans.items }
    requires some { 0 < length plans.items }
    requires writes { by.writes ≡ filter is_write by.ops }
    ensures made { IsMadeEach owner (plan_arrays plans.entry.items) (K.seen state.old.store)
        (K.seen state.new.store) state.old.log.events state.new.log.events
        (each_event owner by.line by.mode by.ops (keys_of plans.entry.items)) result }
    ensures rose { (K.seen state.old.store).faults < (K.seen state.new.store).faults → HasStoreFailed result }
    ensures frame { IsFrame (K.seen state.old.store) (K.seen state.new.store) }
    ensures kept { KeepsByKeys (K.seen state.old.store) state.old.log owner by.line by.mode by.ops plans.entry.items
        (K.seen state.new.store) state.new.log }
{
    let ByKeys {
        line,
        mode,
        mut ops,
        writes,
    } = by;
    let mut numbers = Vec::with_capacity(alloc, plans.len())?;
    for plan in plans {
        let Ok(next) = writes.share() else {
            return Err(CommitRefused::Memory);
        };
        match make_one(alloc, state, owner, line, mode, ops, plan) {
            Ok(number) => numbers.push_reserved(number),
            Err(error) => return Err(unmade(numbers, error)),
        }
        ops = next;
    }
    Ok(List::wrap(numbers))
}

/// Makes a commit as one event for each key, in the order of the keys. All is planned before the first.
pub(crate) fn commit_each<K: KvStore>(
    alloc: Global,
    state: &mut State<K>,
    owner: u32,
    by: ByKeys,
    writes: Vec<ChunkWrite<'_>>,
) -> Result<List<u64>, CommitRefused>
    requires agrees { IsStateByCommit (K.seen state.old.store) state.old.log by.ops writes.items }
    requires writes { AllByRecursion (IsWrite state.old.log.events) writes.items }
    requires all { AreWrites state.old.log.events by.ops writes.items }
    requires some { 0 < length writes.items }
    requires rest { by.writes ≡ filter is_write by.ops }
    ensures made { IsMade owner (K.seen state.old.store)
        (K.seen state.new.store) state.old.log state.new.log 1 writes.entry.items
        (each_event owner by.line by.mode by.ops (write_keys writes.entry.items)) result }
    ensures rose { (K.seen state.old.store).faults < (K.seen state.new.store).faults → HasStoreFailed result }
    ensures frame { IsFrame (K.seen state.old.store) (K.seen state.new.store) }
    ensures kept { KeepsByCommit (K.seen state.old.store) state.old.log by.ops writes.entry.items
        (K.seen state.new.store) state.new.log }
{
    let number = state.events().len() as u64 + 1;
    match plan_writes(alloc, state, owner, number, 1, writes) {
        Ok(plans) => make_each(alloc, state, owner, by, plans),
        Err(error) => Err(unplanned(alloc, error)),
    }
}
