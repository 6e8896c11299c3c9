// A store of files, in a folder of its own.
use crate::stores::{change, shares};
use kv_face::{KvError, KvStore};
use kv_mounts::FileKv;
use std::os::unix::fs::{PermissionsExt, symlink};
use std::process::Abort;
use std::test::Fail;
use std::{fs, slice};

// Puts bytes under a key, or removes it.
fn put(
    rt: HostRuntime,
    store: &mut FileKv<HostRuntime>,
    key: &str,
    bytes: Option<&[u8]>,
) -> Result<Result<(), KvError>, Fail> {
    let change = change(rt.alloc(), key, bytes)?;
    Ok(store.apply(slice::from_ref(&change)))
}

// Whether a key has these bytes, or is absent.
fn has(store: &mut FileKv<HostRuntime>, key: &str, bytes: Option<&[u8]>) -> bool {
    match store.get(key) {
        Ok(Some(found)) => bytes == Some(found.as_slice()),
        Ok(None) => bytes.is_none(),
        Err(_) => false,
    }
}

fn get_fails(store: &mut FileKv<HostRuntime>, key: &str) -> bool {
    match store.get(key) {
        Ok(_) => false,
        Err(e) => e == KvError::Failed,
    }
}

// Whether a file has these bytes.
fn file_has(rt: HostRuntime, path: &str, bytes: &[u8]) -> bool {
    match fs::read(&rt, path) {
        Ok(found) => found.as_slice() == bytes,
        Err(_) => false,
    }
}

#[test]
fn keys_are_files_below_a_folder(rt: HostRuntime) -> Result<(), Fail> {
    let mut store = FileKv::new(rt, "store_tests_keys")?;
    assert!(rt; has(&mut store, "a/b/0", None));
    assert!(rt; put(rt, &mut store, "a/b/0", None)? == Ok(()));
    assert!(rt; put(rt, &mut store, "a/b/0", Some(b"old"))? == Ok(()));
    assert!(rt; has(&mut store, "a/b/0", Some(b"old")));
    assert!(rt; put(rt, &mut store, "a/b/0", Some(b"newer"))? == Ok(()));
    assert!(rt; put(rt, &mut store, "a/.zarray", Some(b""))? == Ok(()));
    assert!(rt; has(&mut store, "a/b/0", Some(b"newer")));
    assert!(rt; has(&mut store, "a/.zarray", Some(b"")));
    assert!(rt; shares(&mut store, "a/b/0", Some(b"newer")));
    assert!(rt; shares(&mut store, "a/b/2", None));
    assert!(rt; file_has(rt, "store_tests_keys/a/b/0", b"newer"));
    assert!(rt; fs::metadata(&rt, "store_tests_keys/a/b/0~new").is_err());
    fs::write(&rt, "store_tests_keys/a/b/1", "other")?;
    assert!(rt; has(&mut store, "a/b/1", Some(b"other")));
    assert!(rt; put(rt, &mut store, "a/b/0", None)? == Ok(()));
    assert!(rt; has(&mut store, "a/b/0", None));
    assert!(rt; fs::metadata(&rt, "store_tests_keys/a/b/0").is_err());
    assert!(rt; store.finish().is_ok());
    fs::remove_dir_all(&rt, "store_tests_keys")?;
    Ok(())
}

#[test]
fn keys_stay_below_the_folder(rt: HostRuntime) -> Result<(), Fail> {
    let mut store = FileKv::new(rt, "store_tests_below/in")?;
    assert!(rt; put(rt, &mut store, "../x", Some(b"1"))? == Err(KvError::Failed));
    assert!(rt; put(rt, &mut store, "a/../../x", Some(b"1"))? == Err(KvError::Failed));
    assert!(rt; put(rt, &mut store, "/x", Some(b"1"))? == Err(KvError::Failed));
    assert!(rt; put(rt, &mut store, "a/./x", Some(b"1"))? == Err(KvError::Failed));
    assert!(rt; put(rt, &mut store, "x~new", Some(b"1"))? == Err(KvError::Failed));
    assert!(rt; put(rt, &mut store, "x~new/y", Some(b"1"))? == Err(KvError::Failed));
    assert!(rt; put(rt, &mut store, "", Some(b"1"))? == Err(KvError::Failed));
    assert!(rt; get_fails(&mut store, "../x"));
    assert!(rt; get_fails(&mut store, ""));
    assert!(rt; fs::metadata(&rt, "store_tests_below").is_err());
    Ok(())
}

#[test]
fn folders_and_files_in_the_way_are_faults(rt: HostRuntime) -> Result<(), Fail> {
    let mut store = FileKv::new(rt, "store_tests_way")?;
    assert!(rt; put(rt, &mut store, "a/b", Some(b"1"))? == Ok(()));
    assert!(rt; get_fails(&mut store, "a"));
    assert!(rt; put(rt, &mut store, "a", Some(b"2"))? == Err(KvError::Failed));
    assert!(rt; put(rt, &mut store, "a", None)? == Err(KvError::Failed));
    assert!(rt; fs::metadata(&rt, "store_tests_way/a~new").is_err());
    assert!(rt; put(rt, &mut store, "a/b/c", Some(b"2"))? == Err(KvError::Failed));
    assert!(rt; has(&mut store, "a/b", Some(b"1")));
    fs::remove_dir_all(&rt, "store_tests_way")?;
    Ok(())
}

// Sets the permissions of a file or folder.
fn set_mode(rt: HostRuntime, path: &str, mode: u32) -> Result<(), Fail> {
    let mut permissions = fs::metadata(&rt, path)?.permissions();
    permissions.set_mode(mode);
    fs::set_permissions(&rt, path, permissions)?;
    Ok(())
}

// Whether calls fail on a file that may not be read, in a folder that may not be written.
fn closed_fails(rt: HostRuntime, store: &mut FileKv<HostRuntime>) -> Result<bool, Fail> {
    let replaced = put(rt, store, "a/b", Some(b"2"))?.is_ok();
    let removed = put(rt, store, "a/b", None)?.is_ok();
    let kept = has(store, "a/b", Some(b"1"));
    set_mode(rt, "store_tests_closed/a/b", 0)?;
    Ok(!replaced && !removed && kept && get_fails(store, "a/b"))
}

#[test]
fn want_of_permission_is_a_fault(rt: HostRuntime) -> Result<(), Fail> {
    let mut store = FileKv::new(rt, "store_tests_closed")?;
    assert!(rt; put(rt, &mut store, "a/b", Some(b"1"))? == Ok(()));
    set_mode(rt, "store_tests_closed/a", 0o555)?;
    if fs::write(&rt, "store_tests_closed/a/c", "").is_ok() {
        println!(rt; "want of permission isn't tried: whoever runs this may write everywhere")?;
    } else {
        assert!(rt; closed_fails(rt, &mut store)?);
    }
    set_mode(rt, "store_tests_closed/a", 0o755)?;
    fs::remove_dir_all(&rt, "store_tests_closed")?;
    Ok(())
}

// A device's bytes never end: it isn't opened.
#[test]
fn a_device_is_a_fault(rt: HostRuntime) -> Result<(), Fail> {
    if fs::metadata(&rt, "/dev/zero").is_err() {
        println!(rt; "a device isn't tried: this machine has none")?;
        return Ok(());
    }
    let mut store = FileKv::new(rt, "/dev")?;
    assert!(rt; get_fails(&mut store, "zero"));
    Ok(())
}

#[test]
fn a_full_device_is_a_fault(rt: HostRuntime) -> Result<(), Fail> {
    if fs::metadata(&rt, "/dev/full").is_err() {
        println!(rt; "a full device isn't tried: this machine has none")?;
        return Ok(());
    }
    let mut store = FileKv::new(rt, "store_tests_full")?;
    assert!(rt; put(rt, &mut store, "a", Some(b"1"))? == Ok(()));
    symlink(&rt, "/dev/full", "store_tests_full/a~new")?;
    assert!(rt; put(rt, &mut store, "a", Some(b"2"))? == Err(KvError::Failed));
    assert!(rt; has(&mut store, "a", Some(b"1")));
    assert!(rt; fs::symlink_metadata(&rt, "store_tests_full/a~new").is_err());
    assert!(rt; put(rt, &mut store, "a", Some(b"3"))? == Ok(()));
    assert!(rt; has(&mut store, "a", Some(b"3")));
    fs::remove_dir_all(&rt, "store_tests_full")?;
    Ok(())
}
