// Numbers of events by the keys of chunks.
ghost use Rattle.std.specs.Prelude.{◌≡◌, ◌<◌, List, ℕ, IsSome, OnOk, string_bytes};
ghost use Rattle.std.specs.FinMap as finmap;
ghost use Rattle.state_laws.specs.Numbers.{IsPrepared, KeepsPrepared};

use indexmap::IndexMap;
use std::alloc::{AllocError, Global};
use std::marker::Model;

/// Numbers of events by the keys of chunks. A key is prepared from `prepare` on, and its number then needs no memory.
#[derive(Drop)]
pub(crate) struct KeyNumbers {
    // A key that is prepared and has no number has 0.
    table: IndexMap<String, u64>,
}

impl Model for KeyNumbers {
    ghost use Rattle.std.specs.Coded.{codes};
    ghost use Rattle.state_laws.specs.Numbers.{KeyTable, key_table, generations_code};

    ghost Value = { KeyTable };

    ghost coded = { Prim.hlevel (codes, generations_code) };

    ghost view = { λ n. key_table n.table.entries };
}

impl KeyNumbers {
    /// No number.
    pub(crate) fn new(alloc: Global) -> Self
        ensures { result.numbers ≡ finmap.empty }
    {
        KeyNumbers {
            table: IndexMap::new(alloc),
        }
    }

    /// The number at a key.
    pub(crate) fn get(&self, key: &str) -> Option<u64>
        ensures { result ≡ finmap.get self.now.numbers key.now }
    {
        match self.table.get(key) {
            Some(0) => None,
            Some(number) => Some(*number),
            None => None,
        }
    }

    /// Prepares a key.
    pub(crate) fn prepare(&mut self, alloc: Global, key: &str) -> Result<(), AllocError>
        ensures key { OnOk result (IsPrepared self.new.prepared key.now) }
        ensures prepared { KeepsPrepared self.old.prepared self.new.prepared }
        ensures numbers { self.new.numbers ≡ self.old.numbers }
    {
        if self.table.contains_key(key) {
            return Ok(());
        }
        let key = String::from_str(alloc, key)?;
        let Ok(_) = self.table.insert(key, 0) else {
            return Err(AllocError);
        };
        Ok(())
    }

    /// Puts a number at a key that is prepared.
    pub(crate) fn put(&mut self, key: String, number: u64)
        requires key { IsPrepared self.old.prepared (string_bytes key) }
        requires number { 0 < number }
        ensures prepared { KeepsPrepared self.old.prepared self.new.prepared }
        ensures numbers { self.new.numbers ≡ finmap.insert self.old.numbers (string_bytes key) number }
    {
        let Ok(_) = self.table.insert(key, number) else {
            unreachable!();
        };
    }
}
