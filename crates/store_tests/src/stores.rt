// A store in memory whose calls fail where a test names them.
ghost use Rattle.std.specs.Prelude.{◌≡◌, IfOk, true};
ghost use Rattle.kv_face.specs.Store.{takes};

use cells::{List, Name};
use kv_face::{Change, KvError, KvStore, MemoryKv};
use std::alloc::{AllocError, Global};
use std::process::Abort;
use std::test::Fail;

pub(crate) fn change(alloc: Global, key: &str, bytes: Option<&[u8]>) -> Result<Change, AllocError>
    ensures { IfOk result (λ c. c.key ≡ key.now) }
{
    let key = String::from_str(alloc, key)?;
    change_of(alloc, Name::wrap(key), bytes)
}

fn change_of(alloc: Global, key: Name, bytes: Option<&[u8]>) -> Result<Change, AllocError>
    ensures { IfOk result (λ c. c.key ≡ key) }
{
    let bytes = match bytes {
        Some(bytes) => Some(List::wrap(Vec::from_slice(alloc, bytes)?)),
        None => None,
    };
    Ok(Change { key, bytes })
}

// Two keys get bytes together.
fn two_keys(rt: &(impl Abort + AllocGlobal), store: &mut MemoryKv) -> Result<(), Fail> {
    let alloc = rt.alloc();
    let mut changes = Vec::new(alloc);
    changes.push(change(alloc, "a/0", Some(b"one"))?)?;
    changes.push(change(alloc, "a/1", Some(b"two"))?)?;
    assert!(rt; store.together(&changes, 0));
    assert!(rt; store.apply(&changes) == Ok(()));
    Ok(())
}

// One key goes, one gets no byte, one is new.
fn three_keys(rt: &(impl Abort + AllocGlobal), store: &mut MemoryKv) -> Result<(), Fail> {
    let alloc = rt.alloc();
    let mut changes = Vec::new(alloc);
    changes.push(change(alloc, "a/0", None)?)?;
    changes.push(change(alloc, "a/1", Some(b""))?)?;
    changes.push(change(alloc, "b", Some(b"three"))?)?;
    assert!(rt; store.apply(&changes) == Ok(()));
    Ok(())
}

#[test]
fn changes_are_held_together(rt: HostRuntime) -> Result<(), Fail> {
    let mut store = MemoryKv::new(rt.alloc(), true);
    two_keys(&rt, &mut store)?;
    three_keys(&rt, &mut store)?;
    assert!(rt; store.held("a/0").is_none());
    assert!(rt; store.held("a/1").map(|b| b.len()) == Some(0));
    assert!(rt; store.held("b").map(|b| b.len()) == Some(5));
    assert!(rt; has(&mut store, "b") == Ok(true));
    assert!(rt; has(&mut store, "c") == Ok(false));
    assert!(rt; store.gets() == 2);
    Ok(())
}

// Whether something stands under a key.
fn has(store: &mut MemoryKv, key: &str) -> Result<bool, KvError> {
    match store.get(key) {
        Ok(bytes) => Ok(bytes.is_some()),
        Err(e) => Err(e),
    }
}

// Whether a store gives these bytes under a key, or none, where they may be shared.
pub(crate) fn shares<K: KvStore>(store: &mut K, key: &str, bytes: Option<&[u8]>) -> bool
    requires { takes ((K.seen store.old).names) key.now ≡ true }
    ensures { (K.seen store.new).names ≡ (K.seen store.old).names }
{
    match store.get_shared(key) {
        Ok(Some(found)) => bytes == Some(found.as_slice()),
        Ok(None) => bytes.is_none(),
        Err(_) => false,
    }
}

#[test]
fn bytes_are_shared_as_they_are_got(rt: HostRuntime) -> Result<(), Fail> {
    let mut store = MemoryKv::new(rt.alloc(), true);
    two_keys(&rt, &mut store)?;
    let given = store.get_shared("a/1");
    three_keys(&rt, &mut store)?;
    assert!(rt;
        given.is_ok_and(|bytes| bytes.is_some_and(|bytes| bytes.as_slice() == b"two".as_slice()))
    );
    assert!(rt; shares(&mut store, "a/0", None));
    assert!(rt; shares(&mut store, "a/1", Some(b"")));
    assert!(rt; shares(&mut store, "b", Some(b"three")));
    assert!(rt; store.gets() == 4);
    Ok(())
}

// Puts a byte under a key.
fn put(alloc: Global, store: &mut MemoryKv, key: &str) -> Result<Result<(), KvError>, Fail> {
    let mut changes = Vec::new(alloc);
    changes.push(change(alloc, key, Some(b"1"))?)?;
    Ok(store.apply(&changes))
}

#[test]
fn named_calls_fail_once(rt: HostRuntime) -> Result<(), Fail> {
    let alloc = rt.alloc();
    let mut store = MemoryKv::new(alloc, false);
    store.fail_get(2)?;
    store.fail_apply(1)?;
    store.fail_finish();
    assert!(rt; put(alloc, &mut store, "a")? == Err(KvError::Failed));
    assert!(rt; has(&mut store, "a") == Ok(false));
    assert!(rt; has(&mut store, "a") == Err(KvError::Failed));
    assert!(rt; put(alloc, &mut store, "a")? == Ok(()));
    assert!(rt; has(&mut store, "a") == Ok(true));
    store.fail_get(4)?;
    assert!(rt; !shares(&mut store, "a", Some(b"1")));
    assert!(rt; shares(&mut store, "a", Some(b"1")));
    assert!(rt; store.finish().is_err());
    assert!(rt; store.finish().is_ok());
    Ok(())
}

// Two changes aren't made together where the store makes one at a time.
fn are_apart(alloc: Global, store: &MemoryKv) -> Result<bool, Fail> {
    let mut changes = Vec::new(alloc);
    changes.push(change(alloc, "a", Some(b"1"))?)?;
    changes.push(change(alloc, "b", None)?)?;
    Ok(!store.together(&changes, 0))
}

#[test]
fn changes_come_one_at_a_time_where_the_store_is_not_atomic(rt: HostRuntime) -> Result<(), Fail> {
    let store = MemoryKv::new(rt.alloc(), false);
    assert!(rt; are_apart(rt.alloc(), &store)?);
    Ok(())
}

// A value that may go to another thread.
fn may_go<T: Send>(_value: &T) -> bool {
    true
}

#[test]
fn a_store_in_memory_may_go_to_another_thread(rt: HostRuntime) {
    let store = MemoryKv::new(rt.alloc(), true);
    assert!(rt; may_go(&store));
}
