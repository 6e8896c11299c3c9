// A chunk as it is.
ghost use Rattle.std.specs.Prelude.{◌≡◌, ◌≢◌, ℕ, List, Some, None, Err, IfOk, OnOk, OnErr, IsSome, false, option_map, string_bytes};
ghost use Rattle.std.specs.FinMap as finmap;
ghost use Rattle.chunk_cache.specs.Cache.{kept};
ghost use Rattle.state_laws.specs.declared.Damage.{Damage as DamageOf};
ghost use Rattle.kv_face.specs.Store.{Contents};
ghost use Rattle.state_laws.specs.Arrays.{Known, known_after, is_local};
ghost use Rattle.state_laws.specs.Chunks.{chunk_key};
ghost use Rattle.state_laws.specs.Seen.{IsRead};
ghost use Rattle.state_laws.specs.Agreement.{IsState, KeepsAgreement};
ghost use Rattle.state_laws.specs.Fetches.{IsAnswered, IsChunkOf, IsDamagedThere, IsNamed, kept_of, looked_at, settled};
ghost use Rattle.state_laws.specs.Looks.{HasBounds, LeavesRead};

use crate::state::State;
use cells::{Dense, Name};
use chunk_cache::Snapshot;
use kv_face::KvStore;
use state_laws::{Bounds, FetchError, Fetched, FormError, Look, decode};
use std::sync::Arc;

impl<K: KvStore> State<K> {
    /// The chunk as it is, which comes first in the cache. A chunk that is kept calls no store.
    ///
    /// # Errors
    /// `StoreFailed` where the store failed, which one event more tells; `Damaged` where what the store has is no chunk of the
    /// array.
    pub fn fetch(&mut self, owner: u32, array: u64, chunk: &[u64]) -> Result<Fetched, FetchError>
        requires agrees { IsState (K.seen self.old.store) self.old.log }
        requires chunk { IsChunkOf self.old.log.events (record { array = array; index = chunk.now }) }
        ensures answered { IfOk result (λ f. IsAnswered (K.seen self.old.store) self.old.log
            (record { array = array; index = chunk.now }) f.snapshot) }
        ensures bounds { IfOk result (λ f. HasBounds self.old.log array f.bounds) }
        ensures hit { (k : Known) → known_after self.old.log.events array ≡ Some k
            → IsSome (kept_of self.old.log array k (chunk_key k chunk.now))
            → (self.new.store ≡ self.old.store) × OnOk result (self.new.log
            ≡ looked_at self.old.log k (chunk_key k chunk.now)) }
        ensures miss { IfOk result (λ f. (k : Known) → known_after self.old.log.events array ≡ Some k
            → kept_of self.old.log array k (chunk_key k chunk.now) ≡ None
            → self.new.log ≡ settled self.old.log k (chunk_key k chunk.now) f.snapshot) }
        ensures damaged { (name : List ℕ) (cause : DamageOf) → result ≡ Err (FetchError.Damaged name cause)
            → (self.new.log ≡ self.old.log) × IsDamagedThere (K.seen self.old.store) self.old.log
            (record { array = array; index = chunk.now }) name cause }
        ensures left { LeavesRead owner (record { array = array; index = chunk.now }) (K.seen self.old.store)
            (K.seen self.new.store) self.old.log self.new.log result }
    {
        let key = self.key_text(array, chunk)?;
        match self.look_at(owner, array, chunk, key.as_str())? {
            Look::Kept { snapshot, bounds } => Ok(Fetched { snapshot, bounds }),
            Look::Bytes {
                generation,
                form,
                bytes,
                bounds,
            } => match decode(self.alloc, &form, &bytes) {
                Ok(cells) => self.put(array, chunk, key, generation, cells, bounds),
                Err(FormError::Damaged { cause }) => Err(FetchError::Damaged {
                    key: Name::wrap(key),
                    cause,
                }),
                Err(FormError::Memory) => Err(FetchError::Memory),
            },
        }
    }

    /// Keeps a chunk's cells, which were decoded, and gives them.
    fn put(
        &mut self,
        array: u64,
        chunk: &[u64],
        key: String,
        generation: u64,
        cells: Dense,
        bounds: Bounds,
    ) -> Result<Fetched, FetchError>
        requires agrees { IsState (K.seen self.old.store) self.old.log }
        requires named { IsNamed self.old.log.events (record { array = array; index = chunk.now }) (string_bytes key) }
        requires bounds { HasBounds self.old.log array bounds }
        requires answered { IsAnswered (K.seen self.old.store) self.old.log
            (record { array = array; index = chunk.now }) (record { generation = generation; cells = cells }) }
        ensures answered { IfOk result (λ f. IsAnswered (K.seen self.old.store) self.old.log
            (record { array = array; index = chunk.now }) f.snapshot) }
        ensures bounds { IfOk result (λ f. HasBounds self.old.log array f.bounds) }
        ensures after { IfOk result (λ f. (k : Known) → known_after self.old.log.events array ≡ Some k
            → self.new.log ≡ settled self.old.log k (string_bytes key) f.snapshot) }
        ensures err { OnErr result ((result ≡ Err FetchError.Memory) × (self.new.log ≡ self.old.log)) }
        ensures store { self.new.store ≡ self.old.store }
        ensures kept { KeepsAgreement (K.seen self.old.store) self.old.log (K.seen self.new.store) self.new.log }
    {
        let Ok(cells) = Arc::new(self.alloc, cells) else {
            return Err(FetchError::Memory);
        };
        let snapshot = Snapshot::new(generation, cells);
        let shared = snapshot.share()?;
        self.settle_at(array, chunk, key, shared)?;
        Ok(Fetched { snapshot, bounds })
    }
}
