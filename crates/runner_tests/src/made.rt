// The nine scripts that are made from a number, on four workers.
use crate::runs::{counted, mounts, run_texts};
use kv_face::MemoryKv;
use script_runner::{MemorySink, OpenGate};
use std::sync::atomic::AtomicU64;
use std::test::Fail;

const LINE: &str = "{\"at\":90,\"commits\":85,\"events\":90,\"refused\":0,\"sum\":506518000}\n";

#[test]
fn made_scripts_four_workers(rt: HostRuntime) -> Result<(), Fail> {
    let made = AtomicU64::new(0);
    let store = counted(MemoryKv::new(rt.alloc(), true), &made);
    let mut mounts = mounts(rt.alloc(), store)?;
    let mut sink = MemorySink::new(rt.alloc(), 65_536)?;
    let outcome = run_texts(
        &rt,
        rt.alloc(),
        &["--workers=4", "--make=7"],
        &[],
        &mut sink,
        &mut mounts,
        &OpenGate,
    )?;
    assert!(rt; outcome.status == 0);
    assert!(rt; outcome.logs.items().len() == 9);
    assert!(rt; sink.bytes() == LINE.as_bytes());
    Ok(())
}
