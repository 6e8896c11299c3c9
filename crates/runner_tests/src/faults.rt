// Two sessions that meet over a store of which one call fails: each call of theirs in turn.
use crate::meetings::{MOST_LOOKS, Plan, met_over};
use kv_face::MemoryKv;
use std::alloc::Global;
use std::sync::Wait;
use std::test::Fail;
use std::thread::Threads;

const FIRST: &str =
    r#"{"open":"a","spec":{"driver":"zarr","kvstore":{"driver":"memory","path":"a"},"metadata":{"chunks":[2],"dtype":"<i4","shape":[2]},"create":true}}
{"begin":{"repeatable_read":true}}
{"write":"a","steps":[{"at":0}],"values":5}
{"read":"a","steps":[{"at":0}]}
{"commit":true}
"#;

const OTHER: &str =
    r#"{"open":"a","spec":{"driver":"zarr","kvstore":{"driver":"memory","path":"a"}}}
{"write":"a","steps":[{"at":1}],"values":6}
{"abort":true}
"#;

// What comes where a call of `get` and one of `apply` fail, 0 for none, and session 0 commits behind session 1's write.
fn failed<R: Threads + Wait + Sync>(
    rt: &R,
    alloc: Global,
    get: u64,
    apply: u64,
) -> Result<String, Fail> {
    let mut store = MemoryKv::new(alloc, true);
    store.fail_get(get)?;
    store.fail_apply(apply)?;
    let plan = Plan {
        workers: "2",
        looks: MOST_LOOKS,
        line: 5,
        coding: 0,
        until: 0,
        behind: true,
        texts: [FIRST, OTHER],
    };
    met_over(rt, alloc, store, &plan)
}

// Session 0 has no array then, and its transaction is committed as an empty one.
const NOT_OPENED: &str = r#"status 1, unfinished [], events 2
{"events":[],"line":1,"store_failed":{"done":[],"event":1}}
{"begin":true,"line":2}
{"line":3,"unknown_name":"a"}
{"line":4,"unknown_name":"a"}
{"commit":[2],"line":5}
{"events":[],"line":1,"not_found":{"at":1,"path":"memory/a"}}
{"line":2,"unknown_name":"a"}
{"line":3,"no_transaction":true}
None"#;

// Session 1's write isn't done.
const NOT_WRITTEN: &str = r#"status 1, unfinished [], events 3
{"domain":{"exclusive_max":[[2]],"inclusive_min":[0]},"dtype":"int32","events":[1],"line":1,"open":"a"}
{"begin":true,"line":2}
{"line":3,"write":1}
{"line":4,"origin":[],"values":5}
{"commit":[3],"line":5}
{"domain":{"exclusive_max":[[2]],"inclusive_min":[0]},"dtype":"int32","events":[],"line":1,"open":"a"}
{"line":2,"store_failed":{"done":[],"event":2}}
{"line":3,"no_transaction":true}
Some([5, 0, 0, 0, 0, 0, 0, 0])"#;

// Session 0's commit isn't done.
const NOT_COMMITTED: &str = r#"status 1, unfinished [], events 3
{"domain":{"exclusive_max":[[2]],"inclusive_min":[0]},"dtype":"int32","events":[1],"line":1,"open":"a"}
{"begin":true,"line":2}
{"line":3,"write":1}
{"line":4,"origin":[],"values":5}
{"line":5,"store_failed":{"done":[],"event":3}}
{"domain":{"exclusive_max":[[2]],"inclusive_min":[0]},"dtype":"int32","events":[],"line":1,"open":"a"}
{"commit":[2],"line":2,"write":1}
{"line":3,"no_transaction":true}
Some([0, 0, 0, 0, 6, 0, 0, 0])"#;

// Both are done: what session 1's write left of the chunk is kept, so session 0's commit asks for nothing.
const BOTH_DONE: &str = r#"status 1, unfinished [], events 3
{"domain":{"exclusive_max":[[2]],"inclusive_min":[0]},"dtype":"int32","events":[1],"line":1,"open":"a"}
{"begin":true,"line":2}
{"line":3,"write":1}
{"line":4,"origin":[],"values":5}
{"commit":[3],"line":5}
{"domain":{"exclusive_max":[[2]],"inclusive_min":[0]},"dtype":"int32","events":[],"line":1,"open":"a"}
{"commit":[2],"line":2,"write":1}
{"line":3,"no_transaction":true}
Some([5, 0, 0, 0, 6, 0, 0, 0])"#;

// The first session asks for the metadata and makes it; the other's write asks for the chunk and makes it; the commit makes it again.
#[test]
fn each_get_of_two_sessions_fails_once(rt: HostRuntime) -> Result<(), Fail> {
    assert!(rt; failed(&rt, rt.alloc(), 1, 0)?.as_str() == NOT_OPENED);
    assert!(rt; failed(&rt, rt.alloc(), 2, 0)?.as_str() == NOT_WRITTEN);
    assert!(rt; failed(&rt, rt.alloc(), 3, 0)?.as_str() == BOTH_DONE);
    Ok(())
}

#[test]
fn each_apply_of_two_sessions_fails_once(rt: HostRuntime) -> Result<(), Fail> {
    assert!(rt; failed(&rt, rt.alloc(), 0, 1)?.as_str() == NOT_OPENED);
    assert!(rt; failed(&rt, rt.alloc(), 0, 2)?.as_str() == NOT_WRITTEN);
    assert!(rt; failed(&rt, rt.alloc(), 0, 3)?.as_str() == NOT_COMMITTED);
    Ok(())
}
