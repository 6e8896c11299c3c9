// Three stores in memory as one store, in which single calls fail.
ghost use Rattle.std.specs.Prelude.{◌≡◌, ◌≤◌, ◌∷◌, ◌++◌, [], length, None, Some, IfOk, true};
ghost use Rattle.kv_face.specs.Store.{takes};
ghost use Rattle.kv_mounts.specs.Parts.{names_of};
ghost use Rattle.store_tests.specs.Three.{three_names};

use crate::stores::{change, shares};
use cells::Name;
use kv_face::{KvStore, MemoryKv};
use kv_mounts::{FinishList, Mount, Mounts};
use std::alloc::{AllocError, Global};
use std::process::Abort;
use std::slice;
use std::test::Fail;

// A store under a name.
fn mount(alloc: Global, name: &str, store: MemoryKv) -> Result<Mount<MemoryKv>, AllocError>
    ensures named { IfOk result (λ m. m.name ≡ name.now) }
    ensures every { IfOk result (λ m. m.names ≡ None) }
{
    let name = Name::wrap(String::from_str(alloc, name)?);
    Ok(Mount { name, store })
}

// A store whose first call of each kind fails, where it is to fail.
fn store(alloc: Global, fails: bool) -> Result<MemoryKv, AllocError> {
    let mut store = MemoryKv::new(alloc, true);
    if fails {
        store.fail_get(1)?;
        store.fail_apply(1)?;
        store.fail_finish();
    }
    Ok(store)
}

// Three mounts; the store at each place fails where its bit is set.
fn three(alloc: Global, fails: u8) -> Result<Mounts<MemoryKv>, AllocError>
    ensures names { IfOk result (λ mounts. names_of mounts ≡ three_names) }
    ensures three { IfOk result (λ mounts. length mounts ≡ 3) }
{
    let mut list = Vec::new(alloc);
    list.push(mount(alloc, "a", store(alloc, fails & 1 != 0)?)?)?;
    list.push(mount(alloc, "b", store(alloc, fails & 2 != 0)?)?)?;
    list.push(mount(alloc, "c", store(alloc, fails & 4 != 0)?)?)?;
    Ok(Mounts::new(alloc, list))
}

// A key of the mount at a place.
fn key_of(place: u8) -> &'static str
    ensures { takes (Some three_names) result.now ≡ true }
{
    match place {
        0 => "a/k",
        1 => "b/k",
        _ => "c/k",
    }
}

// Whether the key at a place can be read.
fn reads<K: KvStore>(store: &mut K, place: u8) -> bool
    requires { (K.seen store.old).names ≡ Some three_names }
    ensures { (K.seen store.new).names ≡ Some three_names }
{
    store.get(key_of(place)).is_ok()
}

// Whether the key at a place has the byte that was put there, where it may be shared.
fn shares_at<K: KvStore>(store: &mut K, place: u8) -> bool
    requires { (K.seen store.old).names ≡ Some three_names }
    ensures { (K.seen store.new).names ≡ Some three_names }
{
    shares(store, key_of(place), Some(b"1"))
}

// Whether the key at a place can be changed.
fn changes<K: KvStore>(alloc: Global, store: &mut K, place: u8) -> Result<bool, Fail>
    requires { (K.seen store.old).names ≡ Some three_names }
    ensures { (K.seen store.new).names ≡ Some three_names }
{
    let change = change(alloc, key_of(place), Some(b"1"))?;
    Ok(store.apply(slice::from_ref(&change)).is_ok())
}

// Reads each key: all can be read but those of failing stores.
fn read_all<K: KvStore>(rt: &impl Abort, store: &mut K, fails: u8)
    requires { (K.seen store.old).names ≡ Some three_names }
    ensures { (K.seen store.new).names ≡ Some three_names }
{
    assert!(rt; reads(store, 0) == (fails & 1 == 0));
    assert!(rt; reads(store, 1) == (fails & 2 == 0));
    assert!(rt; reads(store, 2) == (fails & 4 == 0));
}

// Changes each key: all can be changed but those of failing stores.
fn change_all<K: KvStore>(
    rt: &(impl Abort + AllocGlobal),
    store: &mut K,
    fails: u8,
) -> Result<(), Fail>
    requires { (K.seen store.old).names ≡ Some three_names }
    ensures { IfOk result (λ done. (K.seen store.new).names ≡ Some three_names) }
{
    assert!(rt; changes(rt.alloc(), store, 0)? == (fails & 1 == 0));
    assert!(rt; changes(rt.alloc(), store, 1)? == (fails & 2 == 0));
    assert!(rt; changes(rt.alloc(), store, 2)? == (fails & 4 == 0));
    Ok(())
}

// Each kind of call fails once, in the failing stores alone.
fn fail_once(rt: &(impl Abort + AllocGlobal), fails: u8) -> Result<(), Fail> {
    let mut mounts = three(rt.alloc(), fails)?;
    read_all(rt, &mut mounts, fails);
    read_all(rt, &mut mounts, 0);
    change_all(rt, &mut mounts, fails)?;
    change_all(rt, &mut mounts, 0)?;
    read_all(rt, &mut mounts, 0);
    assert!(rt; shares_at(&mut mounts, 2));
    assert!(rt; mounts.finish().is_err() == (fails != 0));
    assert!(rt; mounts.finish().is_ok());
    Ok(())
}

#[test]
fn each_of_three_stores_fails_once(rt: HostRuntime) -> Result<(), Fail> {
    fail_once(&rt, 1)?;
    fail_once(&rt, 2)?;
    fail_once(&rt, 4)
}

#[test]
fn several_of_three_stores_fail_once(rt: HostRuntime) -> Result<(), Fail> {
    fail_once(&rt, 0)?;
    fail_once(&rt, 3)?;
    fail_once(&rt, 5)?;
    fail_once(&rt, 6)?;
    fail_once(&rt, 7)
}

// The places of the stores that fail to finish.
fn finished(alloc: Global, mounts: &mut Mounts<MemoryKv>) -> Result<Vec<u32>, AllocError>
    requires { length mounts.old ≡ 3 }
    ensures { IfOk result (λ places. length mounts.new ≡ 3) }
{
    let mut list = FinishList::new(alloc, 3)?;
    mounts.finish_into(&mut list);
    Ok(list.places())
}

// Stores that stand open, finished and failed are finished, and the failing ones are listed.
fn list_failing(rt: &(impl Abort + AllocGlobal), fails: u8, places: &[u32]) -> Result<(), Fail> {
    let mut mounts = three(rt.alloc(), fails)?;
    assert!(rt; finished(rt.alloc(), &mut mounts)?.as_slice() == places);
    assert!(rt; finished(rt.alloc(), &mut mounts)?.is_empty());
    Ok(())
}

#[test]
fn stores_that_fail_to_finish_are_listed(rt: HostRuntime) -> Result<(), Fail> {
    list_failing(&rt, 0, &[])?;
    list_failing(&rt, 1, &[0])?;
    list_failing(&rt, 2, &[1])?;
    list_failing(&rt, 3, &[0, 1])?;
    list_failing(&rt, 4, &[2])?;
    list_failing(&rt, 5, &[0, 2])?;
    list_failing(&rt, 6, &[1, 2])?;
    list_failing(&rt, 7, &[0, 1, 2])
}

// A store that makes changes together beside one that doesn't.
fn two(alloc: Global) -> Result<Mounts<MemoryKv>, AllocError> {
    let mut list = Vec::new(alloc);
    list.push(mount(alloc, "a", MemoryKv::new(alloc, true))?)?;
    list.push(mount(alloc, "b", MemoryKv::new(alloc, false))?)?;
    Ok(Mounts::new(alloc, list))
}

// Whether changes of two keys are made together.
fn together<K: KvStore>(alloc: Global, store: &K, one: &str, other: &str) -> Result<bool, Fail> {
    let mut changes = Vec::new(alloc);
    changes.push(change(alloc, one, Some(b"1"))?)?;
    changes.push(change(alloc, other, None)?)?;
    Ok(store.together(&changes, 0))
}

#[test]
fn changes_go_together_within_a_store_that_says_so(rt: HostRuntime) -> Result<(), Fail> {
    let mounts = two(rt.alloc())?;
    assert!(rt; together(rt.alloc(), &mounts, "a/x", "a/y")?);
    assert!(rt; !together(rt.alloc(), &mounts, "b/x", "b/y")?);
    assert!(rt; !together(rt.alloc(), &mounts, "a/x", "b/y")?);
    assert!(rt; !together(rt.alloc(), &mounts, "a/x", "ab/y")?);
    Ok(())
}
