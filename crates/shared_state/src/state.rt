ghost use Rattle.std.specs.Prelude.{◌≡◌, ◌≤◌, ◌^◌, [], IfOk, IfErr};
ghost use Rattle.std.specs.FinMap as finmap;
ghost use Rattle.state_laws.specs.Agreement.{Agrees};

use kv_face::KvStore;
use locations::Locations;
use state_laws::{Event, Records};
use std::alloc::{AllocError, Global};
use std::marker::Model;

/// The events of a run, over a store. Contracts see the store, the log, and what may be added to it without memory.
#[derive(Drop)]
pub struct State<K: KvStore> {
    pub(crate) alloc: Global,
    pub(crate) store: K,
    pub(crate) places: Locations,
    pub(crate) records: Records,
}

impl<K: KvStore> Model for State<K> {
    ghost use Rattle.std.specs.Coded.{codes};
    ghost use Rattle.stack_driver.specs.contracts.view.View as view_type;
    ghost use Rattle.state_laws.specs.Numbers.{generations_code};
    ghost use Rattle.state_laws.specs.Places.{IsTable};
    ghost use Rattle.state_laws.specs.Log.{StateOf, log_of, spare_of};

    ghost Value = { StateOf K };

    ghost coded = { Prim.hlevel (codes, K.code, view_type.the_row.coded, generations_code) };

    ghost view = { λ s. record { store = s.store; log = log_of s.records; spare = spare_of s.records } };

    ghost invariant = { λ s. IsTable s.records.events s.places };
}

/// A store that was not taken for want of memory, handed back.
#[derive(Drop)]
pub struct StateRefused<K: KvStore> {
    pub store: K,
}

impl<K: KvStore> State<K> {
    /// A state without events over a store, with a cache of at most so many cells.
    ///
    /// # Errors
    /// `StateRefused` with the store, where memory is wanting.
    pub fn new(alloc: Global, store: K, limit: u64) -> Result<Self, StateRefused<K>>
        requires { limit ≤ 2 ^ 27 }
        ensures store { IfOk result (λ s. s.store ≡ store) }
        ensures agrees { IfOk result (λ s. Agrees (record { store = K.seen store; limit = limit })
            (K.seen s.store) s.log) }
        ensures events { IfOk result (λ s. s.log.events ≡ []) }
        ensures generations { IfOk result (λ s. s.log.generations ≡ finmap.empty) }
        ensures cache { IfOk result (λ s. s.log.cache ≡ record { limit = limit; entries = [] }) }
        ensures locals { IfOk result (λ s. s.log.locals ≡ []) }
        ensures handed_back { IfErr result (λ refused. refused.store ≡ store) }
    {
        let records = match Records::new(alloc, limit) {
            Ok(records) => records,
            Err(_) => return Err(StateRefused { store }),
        };
        Ok(State {
            alloc,
            store,
            places: Locations::new(alloc),
            records,
        })
    }

    /// The events so far, the first with the number 1.
    pub fn events(&self) -> &[Event]
        ensures { result.now ≡ self.now.log.events }
    {
        self.records.events()
    }

    /// The store and the events.
    pub fn into_parts(self) -> (K, Vec<Event>)
        ensures store { result.0 ≡ self.store }
        ensures events { result.1.items ≡ self.log.events }
    {
        let State {
            alloc: _,
            store,
            places: _,
            records,
        } = self;
        (store, records.into_events())
    }
}
