ghost use Rattle.std.specs.Prelude.{◌≡◌, ◌≤◌, ◌<◌, ◌+◌, ◌++◌, ◌∷◌, ◌⊎◌, ◌↔◌, [], Some, None, IfOk, IfSome, OnOk, OnErr, IsErrOf, IsErr, IsTrue, option_map, map, true, false, length, All};
ghost use Rattle.std.specs.Option.{option_copied};
ghost use Rattle.std.specs.List.{IsDistinct};
ghost use Rattle.std.specs.Str.{IsCharBoundary, bytes_eq};
ghost use Rattle.std.specs.FinMap as finmap;
ghost use Rattle.kv_face.specs.Table.{held_by};
ghost use Rattle.kv_face.specs.Store.{after, keys_of, are_together, takes, opened, finished, failing, OneMore, HasCause, IsToldExactly};

use crate::calls::CountedCalls;
use crate::change::{Change, copy_changes};
use crate::error::{Failed, KvError};
use crate::store::KvStore;
use crate::table::{Table, change_all, share_all};
use bytes::Bytes;
use std::alloc::{AllocError, Global};
use std::marker::Model;

#[derive(Clone, Copy, Debug, PartialEq, Eq)]
enum State {
    Opened,
    Finished,
    Failing,
}

/// A store in memory, whose calls fail exactly where a test says so.
///
/// It takes every key, and makes all changes together where it is atomic. A `get` and a change of a key look the key up
/// once in a hash table, and the memory is that of what is held or was given shared, and of as many keys as there were at most.
/// `get` copies the bytes, `get_shared` and `apply_owned` copy none.
#[derive(Drop)]
pub struct MemoryKv {
    alloc: Global,
    atomic: bool,
    table: Table,
    state: State,
    change_calls: u64,
    gets: CountedCalls,
    applies: CountedCalls,
    finish_calls: u64,
    finish_faults: u64,
    fails_to_finish: bool,
}

impl Model for MemoryKv {
    ghost use Rattle.std.specs.Prelude.{◌≤◌};
    ghost use Rattle.kv_face.specs.Memory.{MemoryStore};
    ghost use Rattle.kv_face.specs.Table.{held_by};
    ghost use Rattle.kv_face.specs.Standing.{standing_of};
    ghost use Rattle.std.specs.Coded.{codes};
    ghost use Rattle.kv_face.specs.Store.{contents_code};

    ghost Value = { MemoryStore };

    ghost coded = { Prim.hlevel (codes, contents_code) };

    ghost view = { λ s. record {
      contents = held_by s.table.map.entries;
      is_atomic = s.atomic;
      standing = standing_of s.state;
      change_calls = s.change_calls;
      gets = s.gets;
      applies = s.applies;
      finish_calls = s.finish_calls;
      finish_faults = s.finish_faults;
      fails_to_finish = s.fails_to_finish;
    } };

    ghost invariant = { λ s. s.finish_faults ≤ s.finish_calls };
}

impl MemoryKv {
    ghost use Rattle.kv_face.specs.Memory.{new_store};

    /// An empty, open store. Where it is atomic, all changes may be made together, else one at a time.
    pub fn new(alloc: Global, atomic: bool) -> Self
        ensures { result ≡ new_store atomic }
    {
        MemoryKv {
            alloc,
            atomic,
            table: Table::new(alloc),
            state: State::Opened,
            change_calls: 0,
            gets: CountedCalls::new(alloc),
            applies: CountedCalls::new(alloc),
            finish_calls: 0,
            finish_faults: 0,
            fails_to_finish: false,
        }
    }

    /// What is held under a key.
    pub fn held(&self, key: &str) -> Option<&[u8]>
        ensures { option_copied result ≡ finmap.get self.now.contents key.now }
    {
        match self.table.get(key) {
            Some(bytes) => Some(bytes.as_slice()),
            None => None,
        }
    }

    /// The number of calls of `get` and `get_shared`; it stops at 2^64-1.
    pub fn gets(&self) -> u64
        ensures { result ≡ self.now.gets.calls }
    {
        self.gets.made()
    }

    /// Names a call of `get` or `get_shared`, counted from 1 over both, that is to fail.
    ///
    /// # Errors
    /// Want of memory alone; then nothing changed.
    pub fn fail_get(&mut self, nth: u64) -> Result<(), AllocError>
        ensures ok { OnOk result (self.new
            ≡ record self.old { gets = record self.old.gets { named = self.old.gets.named ++ nth ∷ [] } }) }
        ensures err { OnErr result (self.new ≡ self.old) }
    {
        self.gets.name(nth)
    }

    /// Names a call of `apply`, counted from 1, that is to fail.
    ///
    /// # Errors
    /// Want of memory alone; then nothing changed.
    pub fn fail_apply(&mut self, nth: u64) -> Result<(), AllocError>
        ensures ok { OnOk result (self.new
            ≡ record self.old { applies = record self.old.applies { named = self.old.applies.named ++ nth ∷ [] } }) }
        ensures err { OnErr result (self.new ≡ self.old) }
    {
        self.applies.name(nth)
    }

    /// Lets the next call of `finish` fail.
    pub fn fail_finish(&mut self)
        ensures { self.new ≡ record self.old { fails_to_finish = true } }
    {
        self.fails_to_finish = true;
    }
}

impl MemoryKv {
    ghost use Rattle.kv_face.specs.Memory.{called, change_calls_after, failed_apply, fails, standing_after};

    /// Counts a call that changes, and says whether it fails. One that fails leaves the store open where there was something to change.
    fn call_apply(&mut self, changes: &[Change]) -> bool
        ensures failed { result ≡ fails self.old.applies }
        ensures on { result ≡ false → self.new ≡ record self.old { applies = called self.old.applies } }
        ensures after_failed { result ≡ true → self.new ≡ failed_apply self.old changes.now }
    {
        if self.applies.call() {
            if !changes.is_empty() {
                self.state = State::Opened;
            }
            return true;
        }
        false
    }

    /// Makes all changes, or none where memory is wanting. Copies no bytes.
    fn make(&mut self, changes: Vec<Change>) -> Result<(), AllocError>
        ensures ok { OnOk result (self.new ≡ record self.old {
          contents = after self.old.contents changes.items;
          standing = standing_after self.old.standing changes.items;
          change_calls = change_calls_after self.old.change_calls changes.items;
        }) }
        ensures err { OnErr result (self.new ≡ self.old) }
    {
        self.table.reserve(changes.len())?;
        let changes = share_all(self.alloc, changes)?;
        if !changes.is_empty() {
            self.state = State::Opened;
            if self.change_calls < u64::MAX {
                self.change_calls += 1;
            }
        }
        change_all(&mut self.table, changes);
        Ok(())
    }
}

impl KvStore for MemoryKv {
    ghost use Rattle.std.specs.Prelude.{Some, None};
    ghost use Rattle.kv_face.specs.Memory.{seen_of, prefixes_of, fails, called, counted, failed_apply, done_apply, finish_fails, after_finish};

    ghost seen = { seen_of };

    fn get(&mut self, key: &str) -> Result<Option<Vec<u8>>, KvError>
        ensures value { IfOk result (λ v. option_map (λ b. b.items) v ≡ finmap.get self.old.contents key.now) }
        ensures failed { IsErrOf result KvError.Failed ↔ IsTrue (fails self.old.gets) }
        ensures called { self.new ≡ record self.old { gets = called self.old.gets } }
    {
        match self.get_shared(key) {
            Ok(Some(bytes)) => Ok(Some(Vec::from_slice(self.alloc, bytes.as_slice())?)),
            Ok(None) => Ok(None),
            Err(e) => Err(e),
        }
    }

    fn get_shared(&mut self, key: &str) -> Result<Option<Bytes>, KvError>
        ensures value { IfOk result (λ v. v ≡ finmap.get self.old.contents key.now) }
        ensures failed { IsErrOf result KvError.Failed ↔ IsTrue (fails self.old.gets) }
        ensures called { self.new ≡ record self.old { gets = called self.old.gets } }
    {
        if self.gets.call() {
            return Err(KvError::Failed);
        }
        match self.table.get(key) {
            Some(bytes) => Ok(Some(bytes.clone()?)),
            None => Ok(None),
        }
    }

    fn together(&self, changes: &[Change], _from: usize) -> bool
        ensures { result ≡ are_together (prefixes_of self.now) changes.now _from }
    {
        changes.len() <= 1 || self.atomic
    }

    fn apply(&mut self, changes: &[Change]) -> Result<(), KvError>
        ensures done { OnOk result (self.new ≡ done_apply self.old changes.now) }
        ensures failed { IsErrOf result KvError.Failed ↔ IsTrue (fails self.old.applies) }
        ensures after_failed { IsErrOf result KvError.Failed → self.new ≡ failed_apply self.old changes.now }
        ensures after_memory { IsErrOf result KvError.Memory
            → self.new ≡ record self.old { applies = called self.old.applies } }
    {
        if self.call_apply(changes) {
            return Err(KvError::Failed);
        }
        let changes = copy_changes(self.alloc, changes)?;
        self.make(changes)?;
        Ok(())
    }

    fn apply_owned(&mut self, changes: Vec<Change>) -> Result<(), KvError>
        ensures done { OnOk result (self.new ≡ done_apply self.old changes.items) }
        ensures failed { IsErrOf result KvError.Failed ↔ IsTrue (fails self.old.applies) }
        ensures after_failed { IsErrOf result KvError.Failed → self.new ≡ failed_apply self.old changes.items }
        ensures after_memory { IsErrOf result KvError.Memory
            → self.new ≡ record self.old { applies = called self.old.applies } }
    {
        if self.call_apply(changes.as_slice()) {
            return Err(KvError::Failed);
        }
        self.make(changes)?;
        Ok(())
    }

    fn finish(&mut self) -> Result<(), Failed>
        ensures failed { IsErr result ↔ IsTrue (finish_fails self.old) }
        ensures after { self.new ≡ after_finish self.old }
    {
        if self.finish_calls == u64::MAX {
            self.state = State::Finished;
            return Ok(());
        }
        self.finish_calls += 1;
        if self.fails_to_finish {
            self.fails_to_finish = false;
            self.finish_faults += 1;
            self.state = State::Failing;
            return Err(Failed);
        }
        self.state = State::Finished;
        Ok(())
    }
}
