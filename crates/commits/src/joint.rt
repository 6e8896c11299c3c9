// A commit that is one change of the store.
ghost use Rattle.std.specs.Prelude.{◌≡◌, ◌<◌, ◌⊎◌, ◌∷◌, [], length, None, true};
ghost use Rattle.std.specs.List.{AllByRecursion};
ghost use Rattle.history.specs.Commit.{are_together};
ghost use Rattle.chunk_plans.specs.Recorded.{done_event};
ghost use Rattle.chunk_plans.specs.Seen.{IsFrame};
ghost use Rattle.chunk_plans.specs.Changing.{AreMade};
ghost use Rattle.commits.specs.Plans.{ArePlans, IsStateByPlans, KeepsByPlans, changes_of};
ghost use Rattle.chunk_plans.specs.Writes.{IsWrite};
ghost use Rattle.commits.specs.Keyed.{IsMadeEach, plan_arrays};
ghost use Rattle.commits.specs.Made.{IsMade};
ghost use Rattle.commits.specs.Planning.{IsAmongOn};
ghost use Rattle.commits.specs.Prepared.{AreWrites};
ghost use Rattle.commits.specs.Refused.{HasStoreFailed};
ghost use Rattle.commits.specs.Right.{IsStateByCommit, KeepsByCommit};
ghost use Rattle.commits.specs.Writes.{stored_write_keys};

use crate::making::commit_planned;
use crate::mount::mount_of_writes;
use crate::planning::plan_writes;
use crate::refused::{CommitRefused, unmade, unplanned};
use cells::{List, Name};
use chunk_plans::{ChunkWrite, Commit, Planned, State};
use kv_face::KvStore;
use std::alloc::Global;

/// Makes the commit by its plans. Room for the answer is made before.
fn make_joint<K: KvStore>(
    alloc: Global,
    state: &mut State<K>,
    owner: u32,
    mount: Name,
    commit: Commit,
    plans: Vec<Planned<'_>>,
) -> Result<List<u64>, CommitRefused>
    requires agrees { IsStateByPlans (K.seen state.old.store) state.old.log owner commit plans.items }
    requires plans { ArePlans state.old.log (done_event owner commit) plans.items }
    requires made { AreMade (K.seen state.old.store) (changes_of plans.items) }
    requires mount { IsAmongOn state.old.log.events (plan_arrays plans.items) mount
        ⊎ (length (changes_of plans.items) ≡ 0) }
    ensures made { IsMadeEach owner (plan_arrays plans.entry.items) (K.seen state.old.store)
        (K.seen state.new.store) state.old.log.events state.new.log.events (done_event owner commit ∷ []) result }
    ensures rose { (K.seen state.old.store).faults < (K.seen state.new.store).faults → HasStoreFailed result }
    ensures frame { IsFrame (K.seen state.old.store) (K.seen state.new.store) }
    ensures kept { KeepsByPlans (K.seen state.old.store) state.old.log owner commit plans.entry.items
        (K.seen state.new.store) state.new.log }
{
    let mut numbers = Vec::with_capacity(alloc, 1)?;
    match commit_planned(alloc, state, owner, mount, commit, plans) {
        Ok(number) => {
            numbers.push_reserved(number);
            Ok(List::wrap(numbers))
        }
        Err(error) => Err(unmade(numbers, error)),
    }
}

/// Makes a commit as one event, which has no key.
pub(crate) fn commit_joint<K: KvStore>(
    alloc: Global,
    state: &mut State<K>,
    owner: u32,
    commit: Commit,
    writes: Vec<ChunkWrite<'_>>,
) -> Result<List<u64>, CommitRefused>
    requires agrees { IsStateByCommit (K.seen state.old.store) state.old.log commit.ops writes.items }
    requires writes { AllByRecursion (IsWrite state.old.log.events) writes.items }
    requires all { AreWrites state.old.log.events commit.ops writes.items }
    requires whole { commit.key ≡ None }
    requires together { are_together ((K.seen state.old.store).prefixes)
        (stored_write_keys state.old.log.events writes.items) ≡ true }
    ensures made { IsMade owner (K.seen state.old.store)
        (K.seen state.new.store) state.old.log state.new.log 0 writes.entry.items
        (done_event owner commit ∷ []) result }
    ensures rose { (K.seen state.old.store).faults < (K.seen state.new.store).faults → HasStoreFailed result }
    ensures frame { IsFrame (K.seen state.old.store) (K.seen state.new.store) }
    ensures kept { KeepsByCommit (K.seen state.old.store) state.old.log commit.ops writes.entry.items
        (K.seen state.new.store) state.new.log }
{
    let mount = mount_of_writes(alloc, state, &writes)?;
    let number = state.events().len() as u64 + 1;
    match plan_writes(alloc, state, owner, number, 0, writes) {
        Ok(plans) => make_joint(alloc, state, owner, mount, commit, plans),
        Err(error) => Err(unplanned(alloc, error)),
    }
}
