// The streams of a run: in memory, as files, and standard output.
use script_streams::{FileScripts, MemoryScripts, MemorySink, Scripts, Sink, StdoutSink};
use std::fs;
use std::process::Abort;
use std::test::Fail;

#[test]
fn scripts_in_memory_fail_where_named(rt: HostRuntime) -> Result<(), Fail> {
    let mut scripts = MemoryScripts::new(rt.alloc());
    scripts.add("s", b"old")?;
    scripts.add("s", b"new")?;
    scripts.fail_select(2)?;
    scripts.fail_next(3)?;
    reads_as_named(&rt, &mut scripts);
    Ok(())
}

fn reads_as_named(rt: &impl Abort, scripts: &mut MemoryScripts) {
    let mut buf = [9u8; 2];
    assert!(rt; scripts.next(&mut buf) == Ok(0));
    assert!(rt; scripts.select("s").is_ok());
    assert!(rt; scripts.next(&mut buf) == Ok(2));
    assert!(rt; buf == *b"ne");
    assert!(rt; scripts.next(&mut buf).is_err());
    assert!(rt; scripts.next(&mut buf) == Ok(1));
    assert!(rt; buf == *b"we");
    assert!(rt; scripts.next(&mut buf) == Ok(0));
    assert!(rt; scripts.select("s").is_err());
    assert!(rt; scripts.next(&mut buf) == Ok(0));
    assert!(rt; scripts.select("t").is_err());
}

#[test]
fn a_sink_in_memory_fails_where_named(rt: HostRuntime) -> Result<(), Fail> {
    let mut sink = MemorySink::new(rt.alloc(), 4)?;
    sink.fail_write(2)?;
    assert!(rt; sink.write(b"abc") == Ok(3));
    assert!(rt; sink.write(b"d").is_err());
    assert!(rt; sink.write(b"de") == Ok(1));
    assert!(rt; sink.write(b"") == Ok(0));
    assert!(rt; sink.write(b"e").is_err());
    assert!(rt; sink.bytes() == b"abcd".as_slice());
    Ok(())
}

#[test]
fn files_are_scripts(rt: HostRuntime) -> Result<(), Fail> {
    fs::write(&rt, "store_tests_script", "abc")?;
    let mut scripts = FileScripts::new(rt);
    let mut buf = [0u8; 8];
    assert!(rt; scripts.next(&mut buf) == Ok(0));
    assert!(rt; scripts.select("store_tests_script").is_ok());
    assert!(rt; scripts.next(&mut buf) == Ok(3));
    assert!(rt; buf == *b"abc\0\0\0\0\0");
    assert!(rt; scripts.next(&mut buf) == Ok(0));
    fs::remove_file(&rt, "store_tests_script")?;
    assert!(rt; scripts.select("store_tests_script").is_err());
    assert!(rt; scripts.next(&mut buf) == Ok(0));
    Ok(())
}

#[test]
fn standard_output_is_a_sink(rt: HostRuntime) {
    let mut sink = StdoutSink::new(rt);
    assert!(rt; sink.write(b"") == Ok(0));
    assert!(rt; sink.write(b"\n") == Ok(1));
}
