// A run over mounts.
ghost use Rattle.std.specs.Prelude.{◌≡◌, ◌≤◌, ◌<◌, ◌^◌, [], length, map, All, IfOk, IfErr};
ghost use Rattle.kv_mounts.specs.Finish.{AreFinished, failed_places};
ghost use Rattle.kv_mounts.specs.Parts.{AreMounts};
ghost use Rattle.session_workers.specs.Finished.{IsRun};

use crate::naming::names_of;
use crate::running::{Ended, run_scripts};
use answer_text::Answer;
use cells::List;
use history::Event;
use kv_face::KvStore;
use kv_mounts::{FinishList, Mount, Mounts};
use session_runs::Gate;
use std::alloc::Global;
use std::sync::Wait;
use std::thread::Threads;

/// What a run over mounts hands back.
#[derive(Drop)]
pub struct Finished<K: KvStore> {
    /// The mounts, in their order.
    pub mounts: Vec<Mount<K>>,
    /// What happened, the first event with the number 1.
    pub history: Vec<Event>,
    /// The answers of each session.
    pub logs: Vec<List<Answer>>,
    /// Whether no session ended without an answer to a line, for want of memory.
    pub whole: bool,
    /// The places of the mounts that couldn't be finished.
    pub unfinished: Vec<u32>,
}

/// Runs each script in a session of its own over the mounts, which come back finished or listed. Session i is dealt to worker i modulo their number,
/// and the last `behind` sessions to a worker of their own, behind all others; the cache is to hold at most so many cells. No clause says
/// which worker had which session, or what the cache held.
///
/// # Errors
/// There was no memory before the first session was started. The mounts come back as they were.
pub fn run_over<K: KvStore + Send, R: Threads + Wait + Sync, G: Gate + Sync>(
    alloc: Global,
    rt: &R,
    mounts: Vec<Mount<K>>,
    scripts: &[Vec<u8>],
    workers: u32,
    cache: u64,
    behind: usize,
    gate: &G,
) -> Result<Finished<K>, Vec<Mount<K>>>
    requires mounts { AreMounts mounts.items }
    requires some { 0 < length scripts.now }
    requires few { length scripts.now < 2 ^ 32 }
    requires short { All (λ s. length s.items < 2 ^ 62) scripts.now }
    requires workers { 0 < workers }
    requires cache { cache ≤ 2 ^ 27 }
    ensures run { IfOk result (λ r. IsRun (map (λ v.
        v.items) scripts.now) mounts.items r.mounts.items r.history.items r.logs.items r.whole r.unfinished.items) }
    ensures back { IfErr result (λ back. back.items ≡ mounts.items) }
{
    let Ok(list) = FinishList::new(alloc, mounts.len() as u32) else {
        return Err(mounts);
    };
    let Ok(names) = names_of(alloc, mounts.as_slice()) else {
        return Err(mounts);
    };
    let store = Mounts::new(alloc, mounts);
    match run_scripts(
        alloc,
        rt,
        store,
        cache,
        names.as_slice(),
        scripts,
        workers as usize,
        behind,
        gate,
    ) {
        Ok(ended) => Ok(finish(ended, list)),
        Err(refused) => Err(refused.store.into_list()),
    }
}

// Finishes the mounts, for which the list has room.
fn finish<K: KvStore>(ended: Ended<Mounts<K>>, mut list: FinishList) -> Finished<K>
    requires empty { list.places ≡ [] }
    requires room { length ended.state.store ≤ list.room }
    ensures finished { AreFinished ended.state.store result.mounts.items }
    ensures mounts { AreMounts result.mounts.items }
    ensures history { result.history.items ≡ ended.state.log.events }
    ensures logs { result.logs.items ≡ ended.logs.items }
    ensures whole { result.whole ≡ ended.whole }
    ensures unfinished { result.unfinished.items ≡ failed_places result.mounts.items }
{
    let Ended { state, logs, whole } = ended;
    let (mut store, history) = state.into_parts();
    store.finish_into(&mut list);
    Finished {
        mounts: store.into_list(),
        history,
        logs,
        whole,
        unfinished: list.places(),
    }
}
