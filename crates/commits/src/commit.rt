// A transaction's commit.
ghost use Rattle.std.specs.Prelude.{◌≡◌, ◌<◌, ◌∷◌, [], Some, length, true};
ghost use Rattle.std.specs.List.{AllByRecursion};
ghost use Rattle.kv_face.specs.Store.{Contents};
ghost use Rattle.history.specs.Commit.{Transaction, are_together};
ghost use Rattle.chunk_plans.specs.Seen.{IsFrame};
ghost use Rattle.chunk_plans.specs.Agreement.{Agrees, Opening};
ghost use Rattle.chunk_plans.specs.Writes.{IsWrite};
ghost use Rattle.commits.specs.Answers.{IsCommitRow, IsCommitted, IsStateByTransaction, IsTold, KeepsByTransaction};
ghost use Rattle.commits.specs.Keyed.{each_event};
ghost use Rattle.commits.specs.Made.{IsMade, whole_event};
ghost use Rattle.commits.specs.Prepared.{AreWrites, write_keys};
ghost use Rattle.commits.specs.Refused.{HasStoreFailed};
ghost use Rattle.commits.specs.Right.{IsStateByCommit, KeepsByCommit};
ghost use Rattle.commits.specs.Writes.{stored_write_keys};

use crate::each::{ByKeys, commit_each};
use crate::joint::commit_joint;
use crate::prepared::Prepared;
use crate::refused::CommitRefused;
use crate::way::{Way, way_of};
use crate::writes::writes_only;
use cells::List;
use chunk_plans::{Commit, State};
use kv_face::KvStore;
use std::alloc::Global;

/// As one event.
fn commit_whole<K: KvStore>(
    alloc: Global,
    state: &mut State<K>,
    owner: u32,
    p: Prepared<'_>,
) -> Result<List<u64>, CommitRefused>
    requires agrees { IsStateByCommit (K.seen state.old.store) state.old.log p.ops p.writes.items }
    requires writes { AllByRecursion (IsWrite state.old.log.events) p.writes.items }
    requires all { AreWrites state.old.log.events p.ops p.writes.items }
    requires together { are_together ((K.seen state.old.store).prefixes)
        (stored_write_keys state.old.log.events p.writes.items) ≡ true }
    ensures made { IsMade owner (K.seen state.old.store)
        (K.seen state.new.store) state.old.log state.new.log 0 p.entry.writes.items
        (whole_event owner p.entry ∷ []) result }
    ensures rose { (K.seen state.old.store).faults < (K.seen state.new.store).faults → HasStoreFailed result }
    ensures frame { IsFrame (K.seen state.old.store) (K.seen state.new.store) }
    ensures kept { KeepsByCommit (K.seen state.old.store) state.old.log p.entry.ops p.entry.writes.items
        (K.seen state.new.store) state.new.log }
{
    let Prepared {
        line,
        mode,
        ops,
        writes,
        ..
    } = p;
    let commit = Commit {
        line,
        mode,
        ops,
        key: None,
    };
    commit_joint(alloc, state, owner, commit, writes)
}

/// As one event for each key.
fn commit_by_keys<K: KvStore>(
    alloc: Global,
    state: &mut State<K>,
    owner: u32,
    p: Prepared<'_>,
) -> Result<List<u64>, CommitRefused>
    requires agrees { IsStateByCommit (K.seen state.old.store) state.old.log p.ops p.writes.items }
    requires writes { AllByRecursion (IsWrite state.old.log.events) p.writes.items }
    requires all { AreWrites state.old.log.events p.ops p.writes.items }
    requires some { 0 < length p.writes.items }
    ensures made { IsMade owner (K.seen state.old.store)
        (K.seen state.new.store) state.old.log state.new.log 1 p.entry.writes.items
        (each_event owner p.entry.line p.entry.mode p.entry.ops (write_keys p.entry.writes.items)) result }
    ensures rose { (K.seen state.old.store).faults < (K.seen state.new.store).faults → HasStoreFailed result }
    ensures frame { IsFrame (K.seen state.old.store) (K.seen state.new.store) }
    ensures kept { KeepsByCommit (K.seen state.old.store) state.old.log p.entry.ops p.entry.writes.items
        (K.seen state.new.store) state.new.log }
{
    let Prepared {
        line,
        mode,
        ops,
        writes: chunks,
        ..
    } = p;
    let writes = writes_only(alloc, &ops)?;
    commit_each(
        alloc,
        state,
        owner,
        ByKeys {
            line,
            mode,
            ops,
            writes,
        },
        chunks,
    )
}

/// Commits a transaction in one turn, and gives the numbers of its events: one where the store makes all changes together, else one for
/// each key, in byte order. Refusals come in the order of `CommitRefused`; the first three change nothing and end the transaction.
///
/// # Errors
/// As `CommitRefused` says. After `Damaged` there is no event more; after `StoreFailed`, which one event more tells, and after `Memory` the
/// events stand that were done before.
pub fn commit_now<K: KvStore>(
    alloc: Global,
    state: &mut State<K>,
    owner: u32,
    p: Prepared<'_>,
) -> Result<List<u64>, CommitRefused>
    requires agrees { IsStateByTransaction (K.seen state.old.store) state.old.log p }
    requires writes { AreWrites state.old.log.events p.ops p.writes.items }
    ensures row { (opening : Opening) (start : Contents) (t : Transaction)
        → Agrees opening (K.seen state.old.store) state.old.log → opening.store.contents ≡ Some start
        → IsCommitted start state.old.log t p.entry
        → IsCommitRow
        (record { start = start; prefixes = opening.store.prefixes }) owner state.old.log.events state.new.log.events t
        result }
    ensures told { IsTold owner (K.seen state.old.store)
        (K.seen state.new.store) state.old.log state.new.log p.entry result }
    ensures rose { (K.seen state.old.store).faults < (K.seen state.new.store).faults → HasStoreFailed result }
    ensures frame { IsFrame (K.seen state.old.store) (K.seen state.new.store) }
    ensures kept { KeepsByTransaction (K.seen state.old.store) state.old.log p.entry
        (K.seen state.new.store) state.new.log }
{
    match way_of(alloc, state, &p) {
        Ok(Way::Whole) => commit_whole(alloc, state, owner, p),
        Ok(Way::ByKeys) => commit_by_keys(alloc, state, owner, p),
        Err(refused) => Err(refused),
    }
}
