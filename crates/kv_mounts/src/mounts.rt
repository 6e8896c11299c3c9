ghost use Rattle.std.specs.Prelude.{◌≡◌, ◌≤◌, ◌<◌, ℕ, Some, None, IfSome, length, false, true, is_err, [], slice_index_or};
ghost use Rattle.std.specs.List.{list_any};
ghost use Rattle.std.specs.Str.{bytes_eq};
ghost use Rattle.kv_face.specs.declared.change.Change.{Change as ChangeOf};
ghost use Rattle.kv_mounts.specs.Finish.{AreFinished, failed_places};
ghost use Rattle.kv_mounts.specs.Parts.{AreMounts, Part, begins, names_of};
ghost use Rattle.kv_mounts.specs.Union.{has_failed};

use crate::failed::FinishList;
use crate::mount::Mount;
use bytes::Bytes;
use kv_face::{Change, Failed, KvError, KvStore, copy_changes};
use std::alloc::Global;
use std::marker::Model;

/// Several stores as one: the key `NAME/REST` is `REST` in the store that is mounted under `NAME`.
///
/// A call goes to one store; it costs by the number of mounts, and not by the number of keys. Changes take memory, since each gets its
/// shorter key; their bytes are copied by `apply`, and moved by `apply_owned`.
#[derive(Drop)]
pub struct Mounts<K: KvStore> {
    alloc: Global,
    list: Vec<Mount<K>>,
}

impl<K: KvStore> Model for Mounts<K> {
    ghost use Rattle.std.specs.Prelude.{List};
    ghost use Rattle.std.specs.Coded.{codes};
    ghost use Rattle.kv_face.specs.Store.{contents_code};
    ghost use Rattle.kv_mounts.specs.Parts.{Part, AreMounts};

    ghost Value = { List Part };

    ghost coded = { Prim.hlevel (codes, contents_code) };

    ghost view = { λ m. m.list.items };

    ghost invariant = { λ m. AreMounts m.list.items };
}

impl<K: KvStore> Mounts<K> {
    /// The mounts as one store. There are 1 to 16 with distinct names, and their stores take every key.
    pub fn new(alloc: Global, list: Vec<Mount<K>>) -> Self
        requires { AreMounts list.items }
        ensures { result ≡ list.items }
    {
        Mounts { alloc, list }
    }

    /// Whether a mount has this name.
    pub fn knows(&self, name: &str) -> bool
        ensures { result ≡ list_any (bytes_eq name.now) (names_of self.now) }
    {
        knows(self.list.as_slice(), name)
    }

    /// Finishes each store, and puts the places of those that failed into the list. Takes no memory.
    pub fn finish_into(&mut self, list: &mut FinishList)
        requires empty { list.old.places ≡ [] }
        requires room { length self.old ≤ list.old.room }
        ensures finished { AreFinished self.old self.new }
        ensures places { list.new ≡ record list.old { places = failed_places self.new } }
    {
        finish_into(self.list.as_mut_slice(), list);
    }

    /// The mounts, in their order.
    pub fn into_list(self) -> Vec<Mount<K>>
        ensures list { result.items ≡ self }
        ensures mounts { AreMounts result.items }
    {
        self.list
    }
}

// Whether a mount has this name.
fn knows<K: KvStore>(list: &[Mount<K>], name: &str) -> bool
    ensures { result ≡ list_any (λ (p : Part). bytes_eq name.now p.name) list.now }
{
    for mount in list {
        if name == mount.name.items() {
            return true;
        }
    }
    false
}

// The place of the mount below which the key lies.
fn place_of<K: KvStore>(list: &[Mount<K>], key: &str) -> Option<usize>
    ensures found { IfSome result (λ i. (i < length list.now)
        × ((d : Part) → begins (slice_index_or list.now i d).name key.now ≡ true)) }
    ensures none { result ≡ None → list_any (λ (p : Part). begins p.name key.now) list.now ≡ false }
{
    for place in 0..list.len() {
        if list[place].has(key) {
            return Some(place);
        }
    }
    None
}

// The place of the mount below which the key of the first of some changes lies.
fn place_of_first<K: KvStore>(list: &[Mount<K>], changes: &[Change]) -> Option<usize>
    requires { 0 < length changes.now }
    ensures found { IfSome result (λ i. (i < length list.now)
        × ((first : ChangeOf) × (first ≡ slice_index_or changes.now 0 first)
        × ((d : Part) → begins (slice_index_or list.now i d).name first.key ≡ true))) }
    ensures none { result ≡ None → (first : ChangeOf) × (first ≡ slice_index_or changes.now 0 first)
        × (list_any (λ (p : Part). begins p.name first.key) list.now ≡ false) }
{
    place_of(list, changes[0].key.items())
}

// Finishes each store.
fn finish_into<K: KvStore>(mounts: &mut [Mount<K>], list: &mut FinishList)
    requires empty { list.old.places ≡ [] }
    requires room { length mounts.old ≤ list.old.room }
    requires few { length mounts.old ≤ 16 }
    ensures finished { AreFinished mounts.old mounts.new }
    ensures places { list.new ≡ record list.old { places = failed_places mounts.new } }
{
    for place in 0..mounts.len() {
        let failed = mounts[place].finish();
        list.note(failed, place as u32);
    }
}

// Finishes each store, and fails where one failed.
fn finish_all<K: KvStore>(mounts: &mut [Mount<K>]) -> Result<(), Failed>
    ensures finished { AreFinished mounts.old mounts.new }
    ensures failed { is_err result ≡ list_any has_failed mounts.new }
{
    let mut failed = false;
    for place in 0..mounts.len() {
        failed |= mounts[place].finish();
    }
    if failed { Err(Failed) } else { Ok(()) }
}

impl<K: KvStore> KvStore for Mounts<K> {
    ghost use Rattle.kv_mounts.specs.Union.{seen_of};

    ghost seen = { seen_of };

    fn get(&mut self, key: &str) -> Result<Option<Vec<u8>>, KvError> {
        let Some(place) = place_of(self.list.as_slice(), key) else {
            unreachable!();
        };
        self.list[place].get(key)
    }

    fn get_shared(&mut self, key: &str) -> Result<Option<Bytes>, KvError> {
        let Some(place) = place_of(self.list.as_slice(), key) else {
            unreachable!();
        };
        self.list[place].get_shared(key)
    }

    fn together(&self, changes: &[Change], from: usize) -> bool {
        if changes.len() <= 1 {
            return true;
        }
        let key = &changes[0].key.items()[from..];
        let Some(place) = place_of(self.list.as_slice(), key) else {
            return false;
        };
        let mount = &self.list[place];
        let start = from + mount.start();
        mount.together(changes, from, start)
    }

    fn apply(&mut self, changes: &[Change]) -> Result<(), KvError> {
        let changes = copy_changes(self.alloc, changes)?;
        self.apply_owned(changes)
    }

    fn apply_owned(&mut self, changes: Vec<Change>) -> Result<(), KvError> {
        if changes.is_empty() {
            return Ok(());
        }
        let Some(place) = place_of_first(self.list.as_slice(), changes.as_slice()) else {
            unreachable!();
        };
        let alloc = self.alloc;
        self.list[place].apply(alloc, changes)
    }

    fn finish(&mut self) -> Result<(), Failed> {
        finish_all(self.list.as_mut_slice())
    }
}
