// A table of keys and bytes. Room is made first, so that putting the bytes in takes no memory.
ghost use Rattle.std.specs.Prelude.{◌≡◌, ◌<◌, ◌≤◌, ◌+◌, length, map, string_bytes, OnOk, IfOk};
ghost use Rattle.std.specs.Option.{option_copied};
ghost use Rattle.std.specs.FinMap as finmap;
ghost use Rattle.indexmap.specs.IndexMap.{spare};
ghost use Rattle.kv_face.specs.Store.{after, changed};
ghost use Rattle.kv_face.specs.Table.{held_by, change_of};

use crate::change::Change;
use bytes::Bytes;
use cells::{List, Name};
use indexmap::IndexMap;
use std::alloc::{AllocError, Global};

#[derive(Drop)]
pub(crate) struct Table {
    pub map: IndexMap<String, Bytes>,
}

impl Table {
    pub(crate) fn new(alloc: Global) -> Self
        ensures { held_by result.map.entries ≡ finmap.empty }
    {
        Table {
            map: IndexMap::new(alloc),
        }
    }

    /// The bytes under a key.
    pub(crate) fn get(&self, key: &str) -> Option<&Bytes>
        ensures { option_copied result ≡ finmap.get (held_by self.now.map.entries) key.now }
    {
        self.map.get(key)
    }

    /// Makes room for so many new keys.
    pub(crate) fn reserve(&mut self, keys: usize) -> Result<(), AllocError>
        ensures held { held_by self.new.map.entries ≡ held_by self.old.map.entries }
        ensures room { OnOk result (keys ≤ spare self.new.map) }
    {
        self.map.reserve(keys)
    }

    /// Makes a change.
    pub(crate) fn change(&mut self, change: Shared)
        requires { 0 < spare self.old.map }
        ensures held { held_by self.new.map.entries ≡ changed (held_by self.old.map.entries) (change_of change) }
        ensures room { spare self.old.map ≤ spare self.new.map + 1 }
    {
        let Shared { key, bytes } = change;
        match bytes {
            Some(bytes) => self.put(key.into_inner(), bytes),
            None => self.remove(key.items()),
        }
    }

    fn put(&mut self, key: String, bytes: Bytes)
        requires { 0 < spare self.old.map }
        ensures held { held_by self.new.map.entries
            ≡ finmap.insert (held_by self.old.map.entries) (string_bytes key) bytes }
        ensures room { spare self.old.map ≤ spare self.new.map + 1 }
    {
        let Ok(_) = self.map.insert(key, bytes) else {
            unreachable!();
        };
    }

    fn remove(&mut self, key: &str)
        ensures held { held_by self.new.map.entries ≡ finmap.remove (held_by self.old.map.entries) key.now }
        ensures room { spare self.old.map ≤ spare self.new.map }
    {
        self.map.swap_remove(key);
    }
}

/// A change whose bytes can be shared.
#[derive(Drop)]
pub(crate) struct Shared {
    pub key: Name,
    pub bytes: Option<Bytes>,
}

fn shared_bytes(bytes: Option<List<u8>>) -> Result<Option<Bytes>, AllocError>
    ensures { IfOk result (λ b. b ≡ bytes) }
{
    match bytes {
        Some(bytes) => Ok(Some(Bytes::from_vec(bytes.into_inner())?)),
        None => Ok(None),
    }
}

fn share(change: Change) -> Result<Shared, AllocError>
    ensures { IfOk result (λ s. change_of s ≡ change) }
{
    let Change { key, bytes } = change;
    let bytes = shared_bytes(bytes)?;
    Ok(Shared { key, bytes })
}

/// The changes with bytes that can be shared; none is copied.
///
/// # Errors
/// Want of memory alone.
pub(crate) fn share_all(alloc: Global, changes: Vec<Change>) -> Result<Vec<Shared>, AllocError>
    ensures { IfOk result (λ v. map change_of v.items ≡ changes.items) }
{
    let mut all = Vec::with_capacity(alloc, changes.len())?;
    for change in changes {
        all.push(share(change)?)?;
    }
    Ok(all)
}

/// Makes all changes, one after another.
pub(crate) fn change_all(table: &mut Table, changes: Vec<Shared>)
    requires { length changes.items ≤ spare table.old.map }
    ensures { held_by table.new.map.entries ≡ after (held_by table.old.map.entries) (map change_of changes.items) }
{
    for change in changes {
        table.change(change);
    }
}
