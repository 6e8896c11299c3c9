// Sessions on one worker over a store that wants memory.
use crate::counted::Counted;
use crate::runs::told;
use kv_face::MemoryKv;
use script_runner::OpenGate;
use std::alloc::Global;
use std::sync::Wait;
use std::sync::atomic::AtomicU64;
use std::test::Fail;
use std::thread::Threads;

const READS: &str =
    r#"{"open":"a","spec":{"driver":"zarr","kvstore":{"driver":"memory","path":"a"},"metadata":{"chunks":[2],"dtype":"<i4","shape":[2]},"create":true,"open":true}}
{"read":"a"}
{"abort":true}
"#;

const WRITES: &str =
    r#"{"open":"a","spec":{"driver":"zarr","kvstore":{"driver":"memory","path":"a"},"metadata":{"chunks":[2],"dtype":"<i4","shape":[2]},"create":true,"open":true}}
{"write":"a","values":[1,2]}
{"abort":true}
"#;

// Two scripts, one behind the other, where a call of `get` and one of `apply` want memory; 0 for none.
fn ran<R: Threads + Wait + Sync>(
    rt: &R,
    alloc: Global,
    get: u64,
    apply: u64,
    texts: [&str; 2],
) -> Result<String, Fail> {
    let made = AtomicU64::new(0);
    let store = Counted {
        store: MemoryKv::new(alloc, true),
        made: &made,
        get_wants: get,
        apply_wants: apply,
    };
    told(rt, alloc, &[], &texts, store, &OpenGate, "a/0")
}

// The session's read is its last line; the other session still runs.
#[test]
fn want_of_memory_in_a_read_ends_the_session(rt: HostRuntime) -> Result<(), Fail> {
    let text = ran(&rt, rt.alloc(), 2, 0, [READS, WRITES])?;
    assert!(rt;
        text.as_str()
            == r#"status 5, unfinished [], events 2
{"domain":{"exclusive_max":[[2]],"inclusive_min":[0]},"dtype":"int32","events":[1],"line":1,"open":"a"}
{"line":2,"memory":true}
{"domain":{"exclusive_max":[[2]],"inclusive_min":[0]},"dtype":"int32","events":[],"line":1,"open":"a"}
{"commit":[2],"line":2,"write":2}
{"line":3,"no_transaction":true}
Some([1, 0, 0, 0, 2, 0, 0, 0])"#
    );
    Ok(())
}

// Nothing was written, and no event added.
#[test]
fn want_of_memory_in_a_commit_ends_the_session(rt: HostRuntime) -> Result<(), Fail> {
    let text = ran(&rt, rt.alloc(), 0, 2, [WRITES, READS])?;
    assert!(rt;
        text.as_str()
            == r#"status 5, unfinished [], events 1
{"domain":{"exclusive_max":[[2]],"inclusive_min":[0]},"dtype":"int32","events":[1],"line":1,"open":"a"}
{"line":2,"memory":true}
{"domain":{"exclusive_max":[[2]],"inclusive_min":[0]},"dtype":"int32","events":[],"line":1,"open":"a"}
{"line":2,"origin":[0],"values":[0,0]}
{"line":3,"no_transaction":true}
None"#
    );
    Ok(())
}

// The array wasn't made; the other session makes it.
#[test]
fn want_of_memory_in_an_opening_ends_the_session(rt: HostRuntime) -> Result<(), Fail> {
    let text = ran(&rt, rt.alloc(), 1, 0, [READS, READS])?;
    assert!(rt;
        text.as_str()
            == r#"status 5, unfinished [], events 1
{"line":1,"memory":true}
{"domain":{"exclusive_max":[[2]],"inclusive_min":[0]},"dtype":"int32","events":[1],"line":1,"open":"a"}
{"line":2,"origin":[0],"values":[0,0]}
{"line":3,"no_transaction":true}
None"#
    );
    Ok(())
}
