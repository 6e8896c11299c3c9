ghost use Rattle.std.specs.Prelude.{◌≡◌, ◌≤◌, ◌<◌, ◌+◌, ◌⊎◌, ◌&&◌, ℕ, Some, None, Ok, Err, IfOk, IfSome, OnOk, OnErr, IsErrOf, option_map, true, length, drop, All};
ghost use Rattle.std.specs.FinMap as finmap;
ghost use Rattle.std.specs.List.{IsDistinct};
ghost use Rattle.std.specs.Str.{IsCharBoundary, bytes_eq};
ghost use Rattle.kv_face.specs.Store.{IsToldExactly, OneMore, after, are_together, keys_of, opened};
ghost use Rattle.kv_face.specs.declared.change.Change.{Change as ChangeOf};
ghost use Rattle.kv_mounts.specs.Parts.{AreOneMounts, all_below, begins, behind, shortened};
ghost use Rattle.kv_mounts.specs.Finish.{IsFinished};
ghost use Rattle.kv_mounts.specs.Union.{has_failed};

use crate::shorter::{behind, shorter};
use bytes::Bytes;
use cells::Name;
use kv_face::{Change, KvError, KvStore};
use std::alloc::Global;
use std::marker::Model;

/// A store under a name.
#[derive(Drop)]
pub struct Mount<K: KvStore> {
    /// Its name: 1 to 64 ASCII letters, digits or `_`, and not `array`.
    pub name: Name,
    /// The store, which takes every key.
    pub store: K,
}

impl<K: KvStore> Model for Mount<K> {
    ghost use Rattle.std.specs.Coded.{codes};
    ghost use Rattle.kv_face.specs.Store.{contents_code};
    ghost use Rattle.kv_mounts.specs.Parts.{Part};

    ghost Value = { Part };

    ghost coded = { Prim.hlevel (codes, contents_code) };

    ghost view = { λ m. record {
      name = m.name;
      contents = (K.seen m.store).contents;
      faults = (K.seen m.store).faults;
      prefixes = (K.seen m.store).prefixes;
      names = (K.seen m.store).names;
      standing = (K.seen m.store).standing;
      change_count = (K.seen m.store).changes;
    } };
}

impl<K: KvStore> Mount<K> {
    // Whether the key lies below the mount.
    pub(crate) fn has(&self, key: &str) -> bool
        ensures { result ≡ begins self.now.name key.now }
    {
        begins(self.name.items().as_bytes(), key.as_bytes())
    }

    // Where the store's own key begins in a key below the mount.
    pub(crate) fn start(&self) -> usize
        requires { length self.now.name ≤ 64 }
        ensures { result ≡ length self.now.name + 1 }
    {
        self.name.items().len() + 1
    }

    // The bytes under a key below the mount.
    pub(crate) fn get(&mut self, key: &str) -> Result<Option<Vec<u8>>, KvError>
        requires below { begins self.old.name key.now ≡ true }
        requires few { length self.old.name ≤ 64 }
        requires every { self.old.names ≡ None }
        ensures value { IfOk result (λ v. IfSome self.old.contents
            (λ m. option_map (λ b. b.items) v ≡ finmap.get m (behind self.old.name key.now))) }
        ensures kept { self.new ≡ record self.old { faults = self.new.faults } }
        ensures cause { IsToldExactly self.old.faults self.new.faults (IsErrOf result KvError.Failed) }
    {
        let rest = behind(self.name.items(), key);
        self.store.get(rest)
    }

    // The same, shared with the store where it keeps them.
    pub(crate) fn get_shared(&mut self, key: &str) -> Result<Option<Bytes>, KvError>
        requires below { begins self.old.name key.now ≡ true }
        requires few { length self.old.name ≤ 64 }
        requires every { self.old.names ≡ None }
        ensures value { IfOk result (λ v. IfSome self.old.contents
            (λ m. v ≡ finmap.get m (behind self.old.name key.now))) }
        ensures kept { self.new ≡ record self.old { faults = self.new.faults } }
        ensures cause { IsToldExactly self.old.faults self.new.faults (IsErrOf result KvError.Failed) }
    {
        let rest = behind(self.name.items(), key);
        self.store.get_shared(rest)
    }

    // Whether the keys, each without its first bytes, all lie below the mount, and its store makes the changes together. The
    // store's own keys begin at `start`.
    pub(crate) fn together(&self, changes: &[Change], from: usize, start: usize) -> bool
        requires start { start ≡ from + (length self.now.name + 1) }
        requires cut { All (λ (c : ChangeOf). IsCharBoundary c.key from) changes.now }
        ensures { result
            ≡ (all_below self.now.name changes.now from && are_together self.now.prefixes changes.now start) }
    {
        if !all_below(self.name.items(), changes, from) {
            return false;
        }
        self.store.together(changes, start)
    }

    // Makes changes below the mount, or none.
    pub(crate) fn apply(&mut self, alloc: Global, changes: Vec<Change>) -> Result<(), KvError>
        requires some { 0 < length changes.items }
        requires few { length self.old.name ≤ 64 }
        requires every { self.old.names ≡ None }
        requires one { AreOneMounts self.old changes.items }
        requires distinct { IsDistinct bytes_eq (keys_of changes.items) }
        ensures done { OnOk result (IfSome self.old.contents
            (λ m. self.new.contents ≡ Some (after m (shortened self.old.name changes.items)))) }
        ensures err { OnErr result (self.new.contents ≡ self.old.contents) }
        ensures kept { self.new ≡ record self.old {
          contents = self.new.contents;
          faults = self.new.faults;
          standing = self.new.standing;
          change_count = self.new.change_count;
        } }
        ensures opens { (result ≡ Err KvError.Memory → ⊥) → self.new.standing ≡ opened }
        ensures standing_memory { result ≡ Err KvError.Memory
            → (self.new.standing ≡ self.old.standing) ⊎ (self.new.standing ≡ opened) }
        ensures one_more { OnOk result (OneMore self.old.change_count self.new.change_count) }
        ensures count_err { OnErr result (self.new.change_count ≡ self.old.change_count) }
        ensures cause { IsToldExactly self.old.faults self.new.faults (IsErrOf result KvError.Failed) }
    {
        let changes = shorter(alloc, self.name.items(), changes)?;
        self.store.apply_owned(changes)
    }

    // Finishes the store, and says whether that failed.
    pub(crate) fn finish(&mut self) -> bool
        ensures finished { IsFinished self.old self.new }
        ensures failed { result ≡ has_failed self.new }
    {
        self.store.finish().is_err()
    }
}

// Whether the key begins with the name and a slash.
fn begins(name: &[u8], key: &[u8]) -> bool
    ensures { result ≡ begins name.now key.now }
{
    key.starts_with(name) && key[name.len()..].starts_with(b"/")
}

// Whether the keys, each without its first bytes, all lie below the name; then what is behind it is a text.
fn all_below(name: &str, changes: &[Change], from: usize) -> bool
    requires { All (λ (c : ChangeOf). IsCharBoundary c.key from) changes.now }
    ensures below { result ≡ all_below name.now changes.now from }
    ensures cut { result ≡ true → All (λ (c : ChangeOf).
        IsCharBoundary c.key (from + (length name.now + 1))) changes.now }
{
    for change in changes {
        if !lies_below(name, change.key.items(), from) {
            return false;
        }
    }
    true
}

// The same of one key.
fn lies_below(name: &str, key: &str, from: usize) -> bool
    requires { IsCharBoundary key.now from }
    ensures below { result ≡ begins name.now (drop from key.now) }
    ensures cut { result ≡ true → IsCharBoundary key.now (from + (length name.now + 1)) }
{
    begins(name.as_bytes(), key[from..].as_bytes())
}
