ghost use Rattle.std.specs.Prelude.{◌≡◌, ◌≤◌, ◌++◌, ◌∷◌, [], OnOk, OnErr};
ghost use Rattle.kv_face.specs.Memory.{fails, called, counted};
ghost use Rattle.kv_face.specs.Streams.{HasRisen};

use std::alloc::{AllocError, Global};
use std::marker::Model;

/// A count of faults after one more, which stops at its last value.
pub fn one_more(faults: u64) -> u64
    ensures count { result ≡ counted faults }
    ensures risen { HasRisen faults result }
    ensures later { faults ≤ result }
{
    if faults < u64::MAX {
        faults + 1
    } else {
        faults
    }
}

/// Calls of one kind: how many there were, which of them are to fail, and how many failed.
///
/// An object in memory has one of these for each of its methods that a test may let fail. Calls are counted from 1 up to
/// 2^64-1; the count stops there, and no call fails from there on.
#[derive(Drop)]
pub struct CountedCalls {
    made: u64,
    faults: u64,
    named: Vec<u64>,
}

impl Model for CountedCalls {
    ghost use Rattle.std.specs.Prelude.{◌≤◌};
    ghost use Rattle.kv_face.specs.Memory.{Calls as CallsOf};

    ghost Value = { CallsOf };

    ghost view = { λ c. record { calls = c.made; named = c.named.items; faults = c.faults } };

    ghost invariant = { λ c. c.faults ≤ c.made };
}

impl CountedCalls {
    /// No calls yet, and none that is to fail.
    pub fn new(alloc: Global) -> Self
        ensures { result ≡ record { calls = 0; named = []; faults = 0 } }
    {
        CountedCalls {
            made: 0,
            faults: 0,
            named: Vec::new(alloc),
        }
    }

    /// Names a call that is to fail, counted from 1.
    ///
    /// # Errors
    /// Want of memory alone; then nothing changed.
    pub fn name(&mut self, nth: u64) -> Result<(), AllocError>
        ensures ok { OnOk result (self.new ≡ record self.old { named = self.old.named ++ nth ∷ [] }) }
        ensures err { OnErr result (self.new ≡ self.old) }
    {
        self.named.push(nth)?;
        Ok(())
    }

    /// The number of calls; it stops at 2^64-1.
    pub fn made(&self) -> u64
        ensures { result ≡ self.now.calls }
    {
        self.made
    }

    /// Counts a call, and says whether it fails.
    pub fn call(&mut self) -> bool
        ensures failed { result ≡ fails self.old }
        ensures counted { self.new ≡ called self.old }
    {
        if self.made == u64::MAX {
            return false;
        }
        self.made += 1;
        if self.named.contains(&self.made) {
            self.faults += 1;
            return true;
        }
        false
    }
}
