// Two sessions on two workers, of which a gate holds the first until the second has changed the store.
use crate::counted::Counted;
use crate::gates::Holding;
use crate::runs::{counted, put, told};
use kv_face::MemoryKv;
use std::alloc::Global;
use std::sync::Wait;
use std::sync::atomic::AtomicU64;
use std::test::Fail;
use std::thread::Threads;

// How often a session looks before it gives up.
pub(crate) const MOST_LOOKS: u64 = 20_000_000;

/// Two scripts, and how they meet.
#[derive(Clone, Copy)]
pub(crate) struct Plan<'t> {
    pub workers: &'t str,
    /// How often a session looks before it gives up.
    pub looks: u64,
    /// The line before which session 0 is held; 0 where it is held as it is about to decode or encode a chunk.
    pub line: u64,
    /// At which of its codings it is held then, from 1 on; else 0.
    pub coding: u64,
    /// How often the store has to be changed before it goes on.
    pub until: u64,
    /// Whether session 1 has to be before its third line too.
    pub behind: bool,
    pub texts: [&'t str; 2],
}

// On two workers.
fn held_before<'t>(line: u64, texts: [&'t str; 2]) -> Plan<'t> {
    Plan {
        workers: "2",
        looks: MOST_LOOKS,
        line,
        coding: 0,
        until: 2,
        behind: false,
        texts,
    }
}

// On two workers, session 0 held at one of its codings until the store was changed so often.
fn held_in_coding<'t>(coding: u64, until: u64, texts: [&'t str; 2]) -> Plan<'t> {
    Plan {
        workers: "2",
        looks: MOST_LOOKS,
        line: 0,
        coding,
        until,
        behind: false,
        texts,
    }
}

// What comes of it over an empty store.
fn met<R: Threads + Wait + Sync>(rt: &R, alloc: Global, plan: &Plan<'_>) -> Result<String, Fail> {
    met_over(rt, alloc, MemoryKv::new(alloc, true), plan)
}

pub(crate) fn met_over<R: Threads + Wait + Sync>(
    rt: &R,
    alloc: Global,
    store: MemoryKv,
    plan: &Plan<'_>,
) -> Result<String, Fail> {
    let made = AtomicU64::new(0);
    let gate = Holding {
        looks: plan.looks,
        line: plan.line,
        coding: plan.coding,
        begun: AtomicU64::new(0),
        until: plan.until,
        made: &made,
        behind: plan.behind,
        come: AtomicU64::new(0),
        held: AtomicU64::new(0),
        missed: AtomicU64::new(0),
    };
    let words = ["--workers", plan.workers];
    let store = counted(store, &made);
    let text = told(rt, alloc, &words, &plan.texts, store, &gate, "a/0")?;
    Ok(if gate.is_passed() {
        text
    } else {
        String::from_str(alloc, "the gate was not passed")?
    })
}

const WRITES_SIX: &str =
    r#"{"open":"a","spec":{"driver":"zarr","kvstore":{"driver":"memory","path":"a"}}}
{"write":"a","steps":[{"at":1}],"values":6}
"#;

const WRITES_TWO: &str =
    r#"{"open":"a","spec":{"driver":"zarr","kvstore":{"driver":"memory","path":"a"}}}
{"begin":{}}
{"write":"a","steps":[{"at":1}],"values":2}
{"commit":true}
"#;

const SHRINKS: &str =
    r#"{"open":"a","spec":{"driver":"zarr","kvstore":{"driver":"memory","path":"a"}}}
{"resize":"a","shape":[1]}
"#;

const READS_ITS_OWN: &str =
    r#"{"open":"a","spec":{"driver":"zarr","kvstore":{"driver":"memory","path":"a"},"metadata":{"chunks":[2],"dtype":"<i4","shape":[2]},"create":true}}
{"begin":{"repeatable_read":true}}
{"write":"a","steps":[{"at":0}],"values":5}
{"read":"a","steps":[{"at":0}]}
{"commit":true}
"#;

const READS_ALL: &str =
    r#"{"open":"a","spec":{"driver":"zarr","kvstore":{"driver":"memory","path":"a"},"metadata":{"chunks":[2],"dtype":"<i4","shape":[2]},"create":true}}
{"begin":{"repeatable_read":true}}
{"write":"a","steps":[{"at":0}],"values":5}
{"read":"a"}
{"commit":true}
"#;

const READS_ALONE: &str =
    r#"{"open":"a","spec":{"driver":"zarr","kvstore":{"driver":"memory","path":"a"},"metadata":{"chunks":[2],"dtype":"<i4","shape":[2]},"create":true}}
{"begin":{"repeatable_read":true}}
{"read":"a"}
{"commit":true}
"#;

const WRITES_ONE: &str =
    r#"{"open":"a","spec":{"driver":"zarr","kvstore":{"driver":"memory","path":"a"},"metadata":{"chunks":[2],"dtype":"<i4","shape":[2]},"create":true}}
{"begin":{}}
{"write":"a","steps":[{"at":0}],"values":1}
{"commit":true}
"#;

const WRITES_LAST: &str =
    r#"{"open":"a","spec":{"driver":"zarr","kvstore":{"driver":"memory","path":"a"},"metadata":{"chunks":[2],"dtype":"<i4","shape":[2]},"create":true}}
{"begin":{}}
{"write":"a","steps":[{"at":1}],"values":5}
{"commit":true}
"#;

const TRIES_TWICE: &str =
    r#"{"open":"a","spec":{"driver":"zarr","kvstore":{"driver":"memory","path":"a"},"metadata":{"chunks":[2],"dtype":"<i4","shape":[2]},"create":true}}
{"begin":{}}
{"write":"a","steps":[{"at":0}],"values":1}
{"commit":true}
{"commit":true}
"#;

const READS_AND_TRIES_TWICE: &str =
    r#"{"open":"a","spec":{"driver":"zarr","kvstore":{"driver":"memory","path":"a"},"metadata":{"chunks":[2],"dtype":"<i4","shape":[2]},"create":true}}
{"begin":{"repeatable_read":true}}
{"read":"a"}
{"write":"a","steps":[{"at":0}],"values":1}
{"commit":true}
{"commit":true}
"#;

const READS_AND_WRITES: &str =
    r#"{"open":"a","spec":{"driver":"zarr","kvstore":{"driver":"memory","path":"a"},"metadata":{"chunks":[2],"dtype":"<i4","shape":[2]},"create":true}}
{"read":"a"}
{"begin":{}}
{"write":"a","steps":[{"at":0}],"values":1}
{"commit":true}
"#;

const WRITES_BOTH: &str =
    r#"{"open":"a","spec":{"driver":"zarr","kvstore":{"driver":"memory","path":"a"},"metadata":{"chunks":[2],"dtype":"<i4","shape":[2]},"create":true}}
{"begin":{}}
{"write":"a","values":[3,4]}
{"commit":true}
"#;

const READS_HELD: &str =
    r#"{"open":"a","spec":{"driver":"zarr","kvstore":{"driver":"memory","path":"a"}}}
{"read":"a"}
"#;

const WRITES_ANOTHER: &str =
    r#"{"open":"b","spec":{"driver":"zarr","kvstore":{"driver":"memory","path":"b"},"metadata":{"chunks":[2],"dtype":"<i4","shape":[2]},"create":true}}
{"write":"b","values":[8,9]}
"#;

// A transaction that read the chunk is refused where another writes to it before the commit.
#[test]
fn read_then_conflict(rt: HostRuntime) -> Result<(), Fail> {
    let text = met(&rt, rt.alloc(), &held_before(5, [READS_ALL, WRITES_SIX]))?;
    assert!(rt;
        text.as_str()
            == r#"status 1, unfinished [], events 2
{"domain":{"exclusive_max":[[2]],"inclusive_min":[0]},"dtype":"int32","events":[1],"line":1,"open":"a"}
{"begin":true,"line":2}
{"line":3,"write":1}
{"line":4,"origin":[0],"values":[5,0]}
{"conflict":{"key":"memory/a/0","now":2,"read":1},"line":5}
{"domain":{"exclusive_max":[[2]],"inclusive_min":[0]},"dtype":"int32","events":[],"line":1,"open":"a"}
{"commit":[2],"line":2,"write":1}
Some([0, 0, 0, 0, 6, 0, 0, 0])"#
    );
    Ok(())
}

// One that read its own cell alone is committed behind the other, and both cells stand.
#[test]
fn read_of_its_own_then_no_conflict(rt: HostRuntime) -> Result<(), Fail> {
    let text = met(
        &rt,
        rt.alloc(),
        &held_before(5, [READS_ITS_OWN, WRITES_SIX]),
    )?;
    assert!(rt;
        text.as_str()
            == r#"status 0, unfinished [], events 3
{"domain":{"exclusive_max":[[2]],"inclusive_min":[0]},"dtype":"int32","events":[1],"line":1,"open":"a"}
{"begin":true,"line":2}
{"line":3,"write":1}
{"line":4,"origin":[],"values":5}
{"commit":[3],"line":5}
{"domain":{"exclusive_max":[[2]],"inclusive_min":[0]},"dtype":"int32","events":[],"line":1,"open":"a"}
{"commit":[2],"line":2,"write":1}
Some([5, 0, 0, 0, 6, 0, 0, 0])"#
    );
    Ok(())
}

#[test]
fn workers_run_beside_each_other(rt: HostRuntime) -> Result<(), Fail> {
    let text = met(&rt, rt.alloc(), &held_before(4, [READS_ALONE, WRITES_SIX]))?;
    assert!(rt;
        text.as_str()
            == r#"status 1, unfinished [], events 2
{"domain":{"exclusive_max":[[2]],"inclusive_min":[0]},"dtype":"int32","events":[1],"line":1,"open":"a"}
{"begin":true,"line":2}
{"line":3,"origin":[0],"values":[0,0]}
{"conflict":{"key":"memory/a/0","now":2,"read":1},"line":4}
{"domain":{"exclusive_max":[[2]],"inclusive_min":[0]},"dtype":"int32","events":[],"line":1,"open":"a"}
{"commit":[2],"line":2,"write":1}
Some([0, 0, 0, 0, 6, 0, 0, 0])"#
    );
    Ok(())
}

// On one worker they don't, and the gate tells it.
#[test]
fn sessions_of_one_worker_do_not_pass_the_gate(rt: HostRuntime) -> Result<(), Fail> {
    let plan = Plan {
        workers: "1",
        looks: 1_000,
        line: 4,
        coding: 0,
        until: 2,
        behind: false,
        texts: [READS_ALONE, WRITES_SIX],
    };
    let text = met(&rt, rt.alloc(), &plan)?;
    assert!(rt; text.as_str() == "the gate was not passed");
    Ok(())
}

#[test]
fn write_only_transactions_merge(rt: HostRuntime) -> Result<(), Fail> {
    let text = met(&rt, rt.alloc(), &held_before(4, [WRITES_ONE, WRITES_TWO]))?;
    assert!(rt;
        text.as_str()
            == r#"status 0, unfinished [], events 3
{"domain":{"exclusive_max":[[2]],"inclusive_min":[0]},"dtype":"int32","events":[1],"line":1,"open":"a"}
{"begin":true,"line":2}
{"line":3,"write":1}
{"commit":[3],"line":4}
{"domain":{"exclusive_max":[[2]],"inclusive_min":[0]},"dtype":"int32","events":[],"line":1,"open":"a"}
{"begin":true,"line":2}
{"line":3,"write":1}
{"commit":[2],"line":4}
Some([1, 0, 0, 0, 2, 0, 0, 0])"#
    );
    Ok(())
}

// Session 0 has decoded the chunk for its read and is held where it is about to encode it for its commit, while session 1 writes to the
// same chunk: the bytes that are prepared then are of a chunk that is gone, and both cells stand.
#[test]
fn prepared_bytes_gone_stale(rt: HostRuntime) -> Result<(), Fail> {
    let text = met(
        &rt,
        rt.alloc(),
        &held_in_coding(2, 2, [READS_AND_WRITES, WRITES_SIX]),
    )?;
    assert!(rt;
        text.as_str()
            == r#"status 0, unfinished [], events 3
{"domain":{"exclusive_max":[[2]],"inclusive_min":[0]},"dtype":"int32","events":[1],"line":1,"open":"a"}
{"line":2,"origin":[0],"values":[0,0]}
{"begin":true,"line":3}
{"line":4,"write":1}
{"commit":[3],"line":5}
{"domain":{"exclusive_max":[[2]],"inclusive_min":[0]},"dtype":"int32","events":[],"line":1,"open":"a"}
{"commit":[2],"line":2,"write":1}
Some([1, 0, 0, 0, 6, 0, 0, 0])"#
    );
    Ok(())
}

// Session 0 is held where it is about to encode the chunk that it covers, and session 1 makes an array and commits to it meanwhile.
#[test]
fn encoding_outside_the_turn(rt: HostRuntime) -> Result<(), Fail> {
    let text = met(
        &rt,
        rt.alloc(),
        &held_in_coding(1, 3, [WRITES_BOTH, WRITES_ANOTHER]),
    )?;
    assert!(rt;
        text.as_str()
            == r#"status 0, unfinished [], events 4
{"domain":{"exclusive_max":[[2]],"inclusive_min":[0]},"dtype":"int32","events":[1],"line":1,"open":"a"}
{"begin":true,"line":2}
{"line":3,"write":2}
{"commit":[4],"line":4}
{"domain":{"exclusive_max":[[2]],"inclusive_min":[0]},"dtype":"int32","events":[2],"line":1,"open":"b"}
{"commit":[3],"line":2,"write":2}
Some([3, 0, 0, 0, 4, 0, 0, 0])"#
    );
    Ok(())
}

// A cell that is cut before the commit is told by the array's key and the event of its new shape.
#[test]
fn shrinking_before_a_commit_is_told(rt: HostRuntime) -> Result<(), Fail> {
    let text = met(&rt, rt.alloc(), &held_before(4, [WRITES_LAST, SHRINKS]))?;
    assert!(rt;
        text.as_str()
            == r#"status 1, unfinished [], events 2
{"domain":{"exclusive_max":[[2]],"inclusive_min":[0]},"dtype":"int32","events":[1],"line":1,"open":"a"}
{"begin":true,"line":2}
{"line":3,"write":1}
{"line":4,"shrunk":{"key":"memory/a/.zarray","now":2}}
{"domain":{"exclusive_max":[[2]],"inclusive_min":[0]},"dtype":"int32","events":[],"line":1,"open":"a"}
{"line":2,"resize":2}
None"#
    );
    Ok(())
}

// The store's second change fails, which is session 0's commit; between its two tries session 1 writes.
#[test]
fn failed_commit_may_be_retried_behind_another(rt: HostRuntime) -> Result<(), Fail> {
    let mut store = MemoryKv::new(rt.alloc(), true);
    store.fail_apply(2)?;
    let text = met_over(
        &rt,
        rt.alloc(),
        store,
        &held_before(5, [TRIES_TWICE, WRITES_TWO]),
    )?;
    assert!(rt;
        text.as_str()
            == r#"status 1, unfinished [], events 4
{"domain":{"exclusive_max":[[2]],"inclusive_min":[0]},"dtype":"int32","events":[1],"line":1,"open":"a"}
{"begin":true,"line":2}
{"line":3,"write":1}
{"line":4,"store_failed":{"done":[],"event":2}}
{"commit":[4],"line":5}
{"domain":{"exclusive_max":[[2]],"inclusive_min":[0]},"dtype":"int32","events":[],"line":1,"open":"a"}
{"begin":true,"line":2}
{"line":3,"write":1}
{"commit":[3],"line":4}
Some([1, 0, 0, 0, 2, 0, 0, 0])"#
    );
    Ok(())
}

// The same where session 0 has read the chunk: the second try is refused.
#[test]
fn failed_commit_of_a_read_meets_a_conflict(rt: HostRuntime) -> Result<(), Fail> {
    let mut store = MemoryKv::new(rt.alloc(), true);
    store.fail_apply(2)?;
    let text = met_over(
        &rt,
        rt.alloc(),
        store,
        &held_before(6, [READS_AND_TRIES_TWICE, WRITES_TWO]),
    )?;
    assert!(rt;
        text.as_str()
            == r#"status 1, unfinished [], events 3
{"domain":{"exclusive_max":[[2]],"inclusive_min":[0]},"dtype":"int32","events":[1],"line":1,"open":"a"}
{"begin":true,"line":2}
{"line":3,"origin":[0],"values":[0,0]}
{"line":4,"write":1}
{"line":5,"store_failed":{"done":[],"event":2}}
{"conflict":{"key":"memory/a/0","now":3,"read":1},"line":6}
{"domain":{"exclusive_max":[[2]],"inclusive_min":[0]},"dtype":"int32","events":[],"line":1,"open":"a"}
{"begin":true,"line":2}
{"line":3,"write":1}
{"commit":[3],"line":4}
Some([0, 0, 0, 0, 2, 0, 0, 0])"#
    );
    Ok(())
}

// The mount is finished behind the last event, and isn't where its store fails then.
#[test]
fn failing_to_finish_is_told_with_all_answers(rt: HostRuntime) -> Result<(), Fail> {
    let mut store = MemoryKv::new(rt.alloc(), true);
    store.fail_finish();
    let text = met_over(
        &rt,
        rt.alloc(),
        store,
        &held_before(4, [WRITES_ONE, WRITES_TWO]),
    )?;
    assert!(rt;
        text.as_str()
            == r#"status 1, unfinished [0], events 3
{"domain":{"exclusive_max":[[2]],"inclusive_min":[0]},"dtype":"int32","events":[1],"line":1,"open":"a"}
{"begin":true,"line":2}
{"line":3,"write":1}
{"commit":[3],"line":4}
{"domain":{"exclusive_max":[[2]],"inclusive_min":[0]},"dtype":"int32","events":[],"line":1,"open":"a"}
{"begin":true,"line":2}
{"line":3,"write":1}
{"commit":[2],"line":4}
Some([1, 0, 0, 0, 2, 0, 0, 0])"#
    );
    Ok(())
}

// A store that holds an array at `a` with the cells 1, 2 and 3.
fn held(alloc: Global) -> Result<MemoryKv, Fail> {
    let mut store = MemoryKv::new(alloc, true);
    put(alloc, &mut store, "a/.zarray", METADATA)?;
    put(alloc, &mut store, "a/0", &[1, 0, 0, 0, 2, 0, 0, 0])?;
    put(alloc, &mut store, "a/1", &[3, 0, 0, 0, 0, 0, 0, 0])?;
    Ok(store)
}

const METADATA: &[u8] =
    br#"{"chunks":[2],"compressor":null,"dimension_separator":".","dtype":"<i4","fill_value":null,"filters":null,"order":"C","shape":[3],"zarr_format":2}"#;

// Session 0 is held where it is about to decode a chunk, and session 1 gets its turns meanwhile.
#[test]
fn decoding_outside_the_turn(rt: HostRuntime) -> Result<(), Fail> {
    let text = met_over(
        &rt,
        rt.alloc(),
        held(rt.alloc())?,
        &held_in_coding(1, 2, [READS_HELD, WRITES_ANOTHER]),
    )?;
    assert!(rt;
        text.as_str()
            == r#"status 0, unfinished [], events 3
{"domain":{"exclusive_max":[[3]],"inclusive_min":[0]},"dtype":"int32","events":[1],"line":1,"open":"a"}
{"line":2,"origin":[0],"values":[1,2,3]}
{"domain":{"exclusive_max":[[2]],"inclusive_min":[0]},"dtype":"int32","events":[2],"line":1,"open":"b"}
{"commit":[3],"line":2,"write":2}
Some([1, 0, 0, 0, 2, 0, 0, 0])"#
    );
    Ok(())
}
