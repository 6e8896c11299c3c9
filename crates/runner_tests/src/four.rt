// Four sessions on four workers, each with a quarter of the rows of one array of 1,000 by 1,000 cells in chunks of 100 by 100.
use crate::counted::Counted;
use crate::runs::{counted, mounts, run_texts};
use kv_face::MemoryKv;
use script_runner::{Body, MemorySink, Mount, OpenGate, Outcome};
use std::alloc::{AllocError, Global};
use std::sync::atomic::AtomicU64;
use std::test::Fail;

const FIRST: &str =
    r#"{"open":"g","spec":{"driver":"zarr","kvstore":{"driver":"memory","path":"g"},"metadata":{"chunks":[100,100],"dtype":"<i4","shape":[1000,1000]},"create":true,"open":true}}
{"begin":{}}
{"write":"g","steps":[{"slice":{"start":0,"stop":250},"dims":[0]}],"values":1}
{"commit":true}
{"begin":{"repeatable_read":true}}
{"read":"g","steps":[{"slice":[{"start":100,"stop":103},{"start":0,"stop":3}]}]}
{"commit":true}
"#;

const SECOND: &str =
    r#"{"open":"g","spec":{"driver":"zarr","kvstore":{"driver":"memory","path":"g"},"metadata":{"chunks":[100,100],"dtype":"<i4","shape":[1000,1000]},"create":true,"open":true}}
{"begin":{}}
{"write":"g","steps":[{"slice":{"start":250,"stop":500},"dims":[0]}],"values":2}
{"commit":true}
{"begin":{"repeatable_read":true}}
{"read":"g","steps":[{"slice":[{"start":350,"stop":353},{"start":0,"stop":3}]}]}
{"commit":true}
"#;

const THIRD: &str =
    r#"{"open":"g","spec":{"driver":"zarr","kvstore":{"driver":"memory","path":"g"},"metadata":{"chunks":[100,100],"dtype":"<i4","shape":[1000,1000]},"create":true,"open":true}}
{"begin":{}}
{"write":"g","steps":[{"slice":{"start":500,"stop":750},"dims":[0]}],"values":3}
{"commit":true}
{"begin":{"repeatable_read":true}}
{"read":"g","steps":[{"slice":[{"start":600,"stop":603},{"start":0,"stop":3}]}]}
{"commit":true}
"#;

const FOURTH: &str =
    r#"{"open":"g","spec":{"driver":"zarr","kvstore":{"driver":"memory","path":"g"},"metadata":{"chunks":[100,100],"dtype":"<i4","shape":[1000,1000]},"create":true,"open":true}}
{"begin":{}}
{"write":"g","steps":[{"slice":{"start":750,"stop":1000},"dims":[0]}],"values":4}
{"commit":true}
{"begin":{"repeatable_read":true}}
{"read":"g","steps":[{"slice":[{"start":850,"stop":853},{"start":0,"stop":3}]}]}
{"commit":true}
"#;

// Whether a session has read its number nine times, at its sixth line.
fn has_read(outcome: &Outcome, session: usize, number: u64) -> bool {
    match outcome.logs.items().get(session) {
        Some(log) => match log.items().get(5) {
            Some(answer) => is_nine_times(&answer.body, number),
            None => false,
        },
        None => false,
    }
}

fn is_nine_times(body: &Body, number: u64) -> bool {
    match body {
        Body::Values { words, .. } => are_nine(words.items(), number),
        _ => false,
    }
}

fn are_nine(words: &[u64], number: u64) -> bool {
    words == [number; 9].as_slice()
}

// The bytes of all chunks, added up: the numbers of the cells, as each is less than 256.
fn sum(alloc: Global, store: &MemoryKv) -> Result<u64, AllocError> {
    let mut sum = 0;
    for row in 0..10 {
        for column in 0..10 {
            let key = format!(in alloc; "g/{row}.{column}")?;
            sum = with_bytes(sum, store.held(key.as_str()));
        }
    }
    Ok(sum)
}

fn with_bytes(sum: u64, bytes: Option<&[u8]>) -> u64 {
    let mut sum = sum;
    if let Some(bytes) = bytes {
        for byte in bytes {
            sum = sum.wrapping_add(u64::from(*byte));
        }
    }
    sum
}

fn sum_of<'n>(alloc: Global, mounts: &[Mount<Counted<'n>>]) -> Result<u64, AllocError> {
    match mounts.first() {
        Some(mount) => sum(alloc, &mount.store.store),
        None => Ok(0),
    }
}

#[test]
fn four_sessions_four_workers(rt: HostRuntime) -> Result<(), Fail> {
    let made = AtomicU64::new(0);
    let store = counted(MemoryKv::new(rt.alloc(), true), &made);
    let mut mounts = mounts(rt.alloc(), store)?;
    let mut sink = MemorySink::new(rt.alloc(), 65_536)?;
    let outcome = run_texts(
        &rt,
        rt.alloc(),
        &["--workers=4"],
        &[FIRST, SECOND, THIRD, FOURTH],
        &mut sink,
        &mut mounts,
        &OpenGate,
    )?;
    assert!(rt; outcome.status == 0);
    assert!(rt; outcome.history.items().len() == 9);
    assert!(rt; has_read(&outcome, 0, 1) && has_read(&outcome, 1, 2));
    assert!(rt; has_read(&outcome, 2, 3) && has_read(&outcome, 3, 4));
    assert!(rt; sum_of(rt.alloc(), mounts.as_slice())? == 2_500_000);
    Ok(())
}
