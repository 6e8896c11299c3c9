// A state behind a turn.
ghost use Rattle.std.specs.Prelude.{◌≡◌, ◌<◌, ◌≤◌, ◌^◌, IfOk, IfErr, vec_len};
ghost use Rattle.turn_book.specs.Passes.{AreNew};

use crate::state::{State, StateRefused};
use kv_face::KvStore;
use state_laws::{AtStart, Event};
use std::alloc::Global;
use turn_book::{Book, Pass, TurnBook};

impl<K: KvStore> Book for State<K> {
    ghost use Rattle.state_laws.specs.Agreement.{Agrees};

    type Entry = Event;

    type Fixed = AtStart<K>;

    ghost owner = { λ event. event.owner };

    ghost history = { λ s. s.log.events };

    ghost opening = { λ s. record {
      store = K.seen s.store;
      limit = s.log.cache.limit;
    } };

    ghost agrees = { λ s fixed. Agrees fixed (K.seen s.store) s.log };
}

impl<K: KvStore> State<K> {
    /// A state without events over a store, with a cache of at most so many cells, behind a turn for so many passes. The pass at place k
    /// has the number k.
    ///
    /// # Errors
    /// `StateRefused` with the store, where memory is wanting.
    pub fn behind_turn(
        alloc: Global,
        store: K,
        limit: u64,
        passes: u32,
    ) -> Result<(TurnBook<State<K>>, Vec<Pass<State<K>>>), StateRefused<K>>
        requires limit { limit ≤ 2 ^ 27 }
        requires some_pass { 0 < passes }
        ensures book { IfOk result (λ r. (r.0.fixed ≡ record { store = K.seen store; limit = limit })
            × (r.0.passes ≡ passes)) }
        ensures count { IfOk result (λ r. vec_len r.1 ≡ passes) }
        ensures passes { IfOk result (λ r. AreNew r.0 r.1.items) }
        ensures handed_back { IfErr result (λ refused. refused.store ≡ store) }
    {
        let state = State::new(alloc, store, limit)?;
        match TurnBook::start(alloc, state, passes) {
            Ok(book) => Ok(book),
            Err(refused) => Err(given_back(refused.state)),
        }
    }
}

fn given_back<K: KvStore>(state: State<K>) -> StateRefused<K>
    ensures { result.store ≡ state.store }
{
    let (store, _) = state.into_parts();
    StateRefused { store }
}
