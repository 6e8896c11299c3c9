// Reading a chunk, and a look into the store with the event that says where it failed.
ghost use Rattle.std.specs.Prelude.{◌≡◌, ◌≢◌, ◌<◌, ℕ, List, Option, Some, None, Ok, Err, IfOk, OnOk, OnErr, IsSome, false, true};
ghost use Rattle.state_laws.specs.declared.Damage.{Damage as DamageOf};
ghost use Rattle.kv_face.specs.Store.{Contents, takes};
ghost use Rattle.state_laws.specs.Arrays.{Known, known_after, is_local};
ghost use Rattle.state_laws.specs.Chunks.{chunk_key};
ghost use Rattle.state_laws.specs.ReadRows.{mount_of};
ghost use Rattle.state_laws.specs.Seen.{IsRead};
ghost use Rattle.state_laws.specs.Agreement.{IsState, KeepsAgreement};
ghost use Rattle.state_laws.specs.Fetches.{IsChunkOf, IsNamed, HasFailed, kept_of, looked_at};
ghost use Rattle.state_laws.specs.Looks.{HasBounds, IsLook, LeavesRead};
ghost use Rattle.state_laws.specs.declared.reading.Bounds.{Bounds as BoundsOf};
ghost use Rattle.state_laws.specs.declared.Form.{Form as FormOf};
ghost use Rattle.chunk_cache.specs.Snapshot.{SnapshotCells};
ghost use Rattle.chunk_cache.specs.Cache.{kept};
ghost use Rattle.std.specs.FinMap as finmap;
ghost use Rattle.state_laws.specs.declared.reading.Look.TheVariants as look;

use crate::state::State;
use bytes::Bytes;
use cells::{Name, copy_name};
use kv_face::{KvError, KvStore};
use state_laws::{Bounds, FetchError, GetError, Look, mount_of};
use std::alloc::AllocError;

impl<K: KvStore> State<K> {
    /// The mount of a stored array.
    ///
    /// # Errors
    /// Want of memory alone.
    pub fn mount_name(&self, array: u64) -> Result<Name, AllocError>
        requires { (k : Known) × (known_after self.now.log.events array ≡ Some k) × (is_local k.info.home ≡ false) }
        ensures { IfOk result (λ name. (k : Known) → known_after self.now.log.events array ≡ Some k
            → mount_of k.info.home ≡ Some name) }
    {
        let Some(mount) = mount_of(&self.records.info(array).home) else {
            unreachable!();
        };
        copy_name(self.alloc, mount)
    }

    /// What the store has under the key of a chunk of a stored array.
    pub(crate) fn bytes_at(
        &mut self,
        owner: u32,
        array: u64,
        chunk: &[u64],
        key: &str,
    ) -> Result<Option<Bytes>, GetError>
        requires agrees { IsState (K.seen self.old.store) self.old.log }
        requires named { IsNamed self.old.log.events (record { array = array; index = chunk.now }) key.now }
        requires stored { (k : Known) → known_after self.old.log.events array ≡ Some k → is_local k.info.home ≡ false }
        ensures read { IsRead (K.seen self.old.store) (K.seen self.new.store) }
        ensures value { IfOk result (λ v. (m : Contents) → (K.seen self.old.store).contents ≡ Some m
            → v ≡ finmap.get m key.now) }
        ensures ok { OnOk result (self.new.log ≡ self.old.log) }
        ensures failed { (event : ℕ) (k : Known) (mount : List ℕ) → result ≡ Err (GetError.Failed event)
            → known_after self.old.log.events array ≡ Some k → mount_of k.info.home ≡ Some mount
            → HasFailed owner mount (K.seen self.old.store) (K.seen self.new.store) self.old.log self.new.log event }
        ensures told { (K.seen self.old.store).faults < (K.seen self.new.store).faults
            → (event : ℕ) × (result ≡ Err (GetError.Failed event)) }
        ensures memory { result ≡ Err GetError.Memory → self.new.log ≡ self.old.log }
        ensures kept { KeepsAgreement (K.seen self.old.store) self.old.log (K.seen self.new.store) self.new.log }
    {
        let mount = self.mount_name(array)?;
        self.get(owner, mount, key)
    }

    /// The chunk as it is kept, or its stored bytes. The store isn't called where it is kept.
    ///
    /// # Errors
    /// `StoreFailed` where the store failed, which one event more tells. `Damaged` never.
    pub fn look(&mut self, owner: u32, array: u64, chunk: &[u64]) -> Result<Look, FetchError>
        requires agrees { IsState (K.seen self.old.store) self.old.log }
        requires chunk { IsChunkOf self.old.log.events (record { array = array; index = chunk.now }) }
        ensures looked { IfOk result (λ l. IsLook (K.seen self.old.store) self.old.log
            (record { array = array; index = chunk.now }) l) }
        ensures hit { (k : Known) → known_after self.old.log.events array ≡ Some k
            → IsSome (kept_of self.old.log array k (chunk_key k chunk.now)) → self.new.store ≡ self.old.store }
        ensures after { OnOk result ((k : Known) → known_after self.old.log.events array ≡ Some k
            → self.new.log ≡ looked_at self.old.log k (chunk_key k chunk.now)) }
        ensures there { (snapshot : SnapshotCells) (bounds : BoundsOf) (k : Known)
            → result ≡ Ok (look.Kept snapshot bounds) → known_after self.old.log.events array ≡ Some k
            → kept_of self.old.log array k (chunk_key k chunk.now) ≡ Some snapshot }
        ensures damaged { (key : List ℕ) (cause : DamageOf) → result ≢ Err (FetchError.Damaged key cause) }
        ensures left { LeavesRead owner (record { array = array; index = chunk.now }) (K.seen self.old.store)
            (K.seen self.new.store) self.old.log self.new.log result }
    {
        let key = self.key_text(array, chunk)?;
        self.look_at(owner, array, chunk, key.as_str())
    }

    pub(crate) fn look_at(
        &mut self,
        owner: u32,
        array: u64,
        chunk: &[u64],
        key: &str,
    ) -> Result<Look, FetchError>
        requires agrees { IsState (K.seen self.old.store) self.old.log }
        requires named { IsNamed self.old.log.events (record { array = array; index = chunk.now }) key.now }
        ensures looked { IfOk result (λ l. IsLook (K.seen self.old.store) self.old.log
            (record { array = array; index = chunk.now }) l) }
        ensures hit { (k : Known) → known_after self.old.log.events array ≡ Some k
            → IsSome (kept_of self.old.log array k key.now) → self.new.store ≡ self.old.store }
        ensures after { OnOk result ((k : Known) → known_after self.old.log.events array ≡ Some k
            → self.new.log ≡ looked_at self.old.log k key.now) }
        ensures there { (snapshot : SnapshotCells) (bounds : BoundsOf) (k : Known)
            → result ≡ Ok (look.Kept snapshot bounds) → known_after self.old.log.events array ≡ Some k
            → kept_of self.old.log array k key.now ≡ Some snapshot }
        ensures still { (generation : ℕ) (form : FormOf) (bytes : Option (List ℕ)) (bounds : BoundsOf)
            → result ≡ Ok (look.Bytes generation form bytes bounds) → self.new.log ≡ self.old.log }
        ensures damaged { (key : List ℕ) (cause : DamageOf) → result ≢ Err (FetchError.Damaged key cause) }
        ensures left { LeavesRead owner (record { array = array; index = chunk.now }) (K.seen self.old.store)
            (K.seen self.new.store) self.old.log self.new.log result }
    {
        let bounds = self.bounds(array)?;
        match self.kept_at(array, chunk, key) {
            Ok(Some(snapshot)) => Ok(Look::Kept { snapshot, bounds }),
            Ok(None) => self.stored_look(owner, array, chunk, key, bounds),
            Err(_) => Err(FetchError::Memory),
        }
    }

    fn stored_look(
        &mut self,
        owner: u32,
        array: u64,
        chunk: &[u64],
        key: &str,
        bounds: Bounds,
    ) -> Result<Look, FetchError>
        requires agrees { IsState (K.seen self.old.store) self.old.log }
        requires named { IsNamed self.old.log.events (record { array = array; index = chunk.now }) key.now }
        requires unkept { (k : Known) → known_after self.old.log.events array ≡ Some k → (is_local k.info.home ≡ false)
            × (kept key.now self.old.log.cache.entries ≡ None) }
        requires bounds { HasBounds self.old.log array bounds }
        ensures looked { IfOk result (λ l. IsLook (K.seen self.old.store) self.old.log
            (record { array = array; index = chunk.now }) l) }
        ensures bytes { (snapshot : SnapshotCells) (bounds : BoundsOf) → result ≢ Ok (look.Kept snapshot bounds) }
        ensures ok { OnOk result (self.new.log ≡ self.old.log) }
        ensures damaged { (key : List ℕ) (cause : DamageOf) → result ≢ Err (FetchError.Damaged key cause) }
        ensures left { LeavesRead owner (record { array = array; index = chunk.now }) (K.seen self.old.store)
            (K.seen self.new.store) self.old.log self.new.log result }
    {
        match self.bytes_at(owner, array, chunk, key) {
            Ok(bytes) => self.described(array, chunk, key, bytes, bounds),
            Err(GetError::Failed { event }) => Err(FetchError::StoreFailed { event }),
            Err(GetError::Memory) => Err(FetchError::Memory),
        }
    }

    /// A look at stored bytes, with what is needed to read them.
    fn described(
        &self,
        array: u64,
        chunk: &[u64],
        key: &str,
        bytes: Option<Bytes>,
        bounds: Bounds,
    ) -> Result<Look, FetchError>
        requires named { IsNamed self.now.log.events (record { array = array; index = chunk.now }) key.now }
        requires unkept { (k : Known) → known_after self.now.log.events array ≡ Some k → (is_local k.info.home ≡ false)
            × (kept key.now self.now.log.cache.entries ≡ None) }
        requires bounds { HasBounds self.now.log array bounds }
        requires bytes { (m : Contents) → (K.seen self.now.store).contents ≡ Some m
            → bytes ≡ finmap.get m key.now }
        ensures looked { IfOk result (λ l. IsLook (K.seen self.now.store) self.now.log
            (record { array = array; index = chunk.now }) l) }
        ensures bytes { (snapshot : SnapshotCells) (bounds : BoundsOf) → result ≢ Ok (look.Kept snapshot bounds) }
        ensures err { OnErr result (result ≡ Err FetchError.Memory) }
    {
        let generation = self.generation_at(array, key);
        let form = self.info(array)?;
        Ok(Look::Bytes {
            generation,
            form,
            bytes,
            bounds,
        })
    }

    /// The bytes under a key of an array on a mount. Room for the event is made before the store is called.
    pub(crate) fn get(
        &mut self,
        owner: u32,
        mount: Name,
        key: &str,
    ) -> Result<Option<Bytes>, GetError>
        requires { takes ((K.seen self.old.store).names) key.now ≡ true }
        ensures read { IsRead (K.seen self.old.store) (K.seen self.new.store) }
        ensures value { IfOk result (λ v. (m : Contents) → (K.seen self.old.store).contents ≡ Some m
            → v ≡ finmap.get m key.now) }
        ensures ok { OnOk result (self.new.log ≡ self.old.log) }
        ensures failed { (event : ℕ) → result ≡ Err (GetError.Failed event)
            → HasFailed owner mount (K.seen self.old.store) (K.seen self.new.store) self.old.log self.new.log event }
        ensures told { (K.seen self.old.store).faults < (K.seen self.new.store).faults
            → (event : ℕ) × (result ≡ Err (GetError.Failed event)) }
        ensures memory { result ≡ Err GetError.Memory → self.new.log ≡ self.old.log }
    {
        self.records.reserve()?;
        match self.store.get_shared(key) {
            Ok(bytes) => Ok(bytes),
            Err(KvError::Memory) => Err(GetError::Memory),
            Err(KvError::Failed) => {
                let event = self.records.add_fault(owner, mount);
                Err(GetError::Failed { event })
            }
        }
    }
}
