// The generation of any key.
ghost use Rattle.std.specs.Prelude.{◌≡◌, ◌≢◌, ◌<◌, ◌^◌, ℕ, length, None, Some, IfSome, IsSome};
ghost use Rattle.state_laws.specs.Names.{local_key};
ghost use Rattle.kv_face.specs.Store.{Contents};
ghost use Rattle.state_laws.specs.Arrays.{Known, known_after};
ghost use Rattle.state_laws.specs.Chunks.{Chunk};
ghost use Rattle.state_laws.specs.Generations.{HasKey, IsGenerationOf};
ghost use Rattle.state_laws.specs.Agreement.{Opening, Agrees, IsState};
ghost use Rattle.state_laws.specs.Fetches.{generation_in};
ghost use Rattle.state_laws.specs.Keyed.{IsKeyIn, IsNobodys};

use crate::state::State;
use kv_face::KvStore;
use state_laws::{is_chunk_name, local_at, local_number, name_in};

impl<K: KvStore> State<K> {
    /// The stored array one of whose chunks has the key.
    fn stored_of(&self, key: &[u8]) -> Option<u64>
        requires agrees { IsState (K.seen self.now.store) self.now.log }
        requires stored { (n : ℕ) → n < 2 ^ 64 → local_key n ≢ key.now }
        requires few { length self.now.log.events < 2 ^ 64 }
        ensures some { IfSome result (λ a. IsKeyIn self.now.log.events key.now a) }
        ensures none { result ≡ None → IsNobodys self.now.log.events key.now }
    {
        let number = self.places.above(key)?;
        let info = self.records.info(number);
        let name = name_in(&info.home, key);
        if is_chunk_name(info, name) {
            Some(number)
        } else {
            None
        }
    }

    /// The array one of whose chunks has the key.
    fn array_of(&self, key: &[u8]) -> Option<u64>
        requires agrees { IsState (K.seen self.now.store) self.now.log }
        requires few { length self.now.log.events < 2 ^ 64 }
        ensures some { IfSome result (λ a. IsKeyIn self.now.log.events key.now a) }
        ensures none { result ≡ None → IsNobodys self.now.log.events key.now }
    {
        match local_number(key) {
            Some(event) => local_at(self.records.events(), event),
            None => self.stored_of(key),
        }
    }

    /// The generation of the chunk that has a key: the number of the last event that touched it. The chunk may lie past its array's
    /// shape. 0 where no chunk of an array of the run has the key. Takes no memory.
    pub fn generation(&self, key: &str) -> u64
        requires agrees { IsState (K.seen self.now.store) self.now.log }
        ensures by_table { (c : Chunk) (has : HasKey self.now.log.events c key.now)
            → result ≡ generation_in self.now.log has.array key.now }
        ensures history { IsGenerationOf self.now.log.events key.now result }
    {
        // A look at the length, by which the contract knows that numbers of events have 64 bits.
        let _ = self.events().len();
        match self.array_of(key.as_bytes()) {
            Some(array) => self.generation_at(array, key),
            None => 0,
        }
    }

    /// The generation that the table tells of a chunk of an array.
    pub(crate) fn generation_at(&self, array: u64, key: &str) -> u64
        requires { IsSome (known_after self.now.log.events array) }
        ensures { (k : Known) → known_after self.now.log.events array ≡ Some k
            → result ≡ generation_in self.now.log k key.now }
    {
        match self.records.number_at(key) {
            Some(number) => number,
            None => self.records.opened(array),
        }
    }
}
