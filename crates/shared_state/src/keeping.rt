// What is kept of a chunk, and new arrays whose one chunk the run holds.
ghost use Rattle.std.specs.Prelude.{◌≡◌, Some, None, Ok, IsSome, IfOk, IfSome, OnOk, OnErr, true, string_bytes, ◌≤◌, ◌<◌, ◌+◌, ◌^◌, length, map, max};
ghost use Rattle.state_laws.specs.Arrays.{Known, known_after, is_local};
ghost use Rattle.state_laws.specs.Chunks.{chunk_key};
ghost use Rattle.state_laws.specs.Log.{cells_held};
ghost use Rattle.state_laws.specs.Agreement.{IsState, KeepsAgreement};
ghost use Rattle.state_laws.specs.Fetches.{IsAnswered, IsChunkOf, IsNamed, KeepsSettled, kept_of, looked_at, settled};
ghost use Rattle.cells.specs.Places.{cell_count};
ghost use Rattle.state_laws.specs.OpenRows.{next_array, given_info, new_ref};
ghost use Rattle.state_laws.specs.Placed.{IsGiven, entered};

use crate::state::State;
use cells::Dense;
use chunk_cache::{Snapshot, as_snapshot};
use kv_face::KvStore;
use state_laws::{NewArray, Opened, add_given, given_array, is_local};
use std::alloc::AllocError;

impl<K: KvStore> State<K> {
    /// Whether the run holds an array, and no store.
    pub fn is_local(&self, array: u64) -> bool
        requires { IsSome (known_after self.now.log.events array) }
        ensures { (k : Known) → known_after self.now.log.events array ≡ Some k → result ≡ is_local k.info.home }
    {
        is_local(&self.records.info(array).home)
    }

    /// The cells that the run holds of a local array.
    fn share_held(&self, array: u64) -> Result<Option<Snapshot>, AllocError>
        requires agrees { IsState (K.seen self.now.store) self.now.log }
        requires local { (k : Known) × (known_after self.now.log.events array ≡ Some k)
            × (is_local k.info.home ≡ true) }
        ensures { IfOk result (λ o. o ≡ cells_held self.now.log array) }
    {
        let Some(cells) = self.records.held(array) else {
            unreachable!();
        };
        Ok(Some(cells.share()?))
    }

    /// What is kept of the chunk that has a key. A stored array's chunk becomes the last used.
    pub(crate) fn kept_at(
        &mut self,
        array: u64,
        chunk: &[u64],
        key: &str,
    ) -> Result<Option<Snapshot>, AllocError>
        requires agrees { IsState (K.seen self.old.store) self.old.log }
        requires named { IsNamed self.old.log.events (record { array = array; index = chunk.now }) key.now }
        ensures value { IfOk result (λ o. (k : Known) → known_after self.old.log.events array ≡ Some k
            → o ≡ kept_of self.old.log array k key.now) }
        ensures missed { result ≡ Ok None → self.new ≡ self.old }
        ensures answered { IfOk result (λ o. IfSome o (λ s.
            IsAnswered (K.seen self.old.store) self.old.log (record { array = array; index = chunk.now }) s)) }
        ensures after { OnOk result ((k : Known) → known_after self.old.log.events array ≡ Some k
            → self.new.log ≡ looked_at self.old.log k key.now) }
        ensures err { OnErr result (self.new.log ≡ self.old.log) }
        ensures store { self.new.store ≡ self.old.store }
        ensures kept { KeepsAgreement (K.seen self.old.store) self.old.log (K.seen self.new.store) self.new.log }
    {
        if self.is_local(array) {
            return self.share_held(array);
        }
        self.records.hit(key)
    }

    /// Keeps a chunk's cells under its key, where their generation is still the chunk's.
    pub(crate) fn settle_at(
        &mut self,
        array: u64,
        chunk: &[u64],
        key: String,
        snapshot: Snapshot,
    ) -> Result<(), AllocError>
        requires agrees { IsState (K.seen self.old.store) self.old.log }
        requires named { IsNamed self.old.log.events (record { array = array; index = chunk.now }) (string_bytes key) }
        ensures after { OnOk result ((k : Known) → known_after self.old.log.events array ≡ Some k
            → self.new.log ≡ settled self.old.log k (string_bytes key) snapshot) }
        ensures err { OnErr result (self.new.log ≡ self.old.log) }
        ensures store { self.new.store ≡ self.old.store }
        ensures kept { KeepsSettled (K.seen self.old.store) self.old.log
            (record { array = array; index = chunk.now }) snapshot (K.seen self.new.store) self.new.log }
    {
        if self.is_local(array) {
            return Ok(());
        }
        if self.generation_at(array, key.as_str()) != snapshot.generation() {
            return Ok(());
        }
        match self.records.keep(key, snapshot) {
            Ok(()) => Ok(()),
            Err(_) => Err(AllocError),
        }
    }

    /// What is kept of a chunk: of a local array its cells, of a stored one the chunk in the cache, which becomes the last used.
    /// No call of the store.
    ///
    /// # Errors
    /// Want of memory alone.
    pub fn kept(&mut self, array: u64, chunk: &[u64]) -> Result<Option<Snapshot>, AllocError>
        requires agrees { IsState (K.seen self.old.store) self.old.log }
        requires chunk { IsChunkOf self.old.log.events (record { array = array; index = chunk.now }) }
        ensures value { IfOk result (λ o. (k : Known) → known_after self.old.log.events array ≡ Some k
            → o ≡ kept_of self.old.log array k (chunk_key k chunk.now)) }
        ensures answered { IfOk result (λ o. IfSome o (λ s.
            IsAnswered (K.seen self.old.store) self.old.log (record { array = array; index = chunk.now }) s)) }
        ensures after { OnOk result ((k : Known) → known_after self.old.log.events array ≡ Some k
            → self.new.log ≡ looked_at self.old.log k (chunk_key k chunk.now)) }
        ensures err { OnErr result (self.new.log ≡ self.old.log) }
        ensures store { self.new.store ≡ self.old.store }
        ensures kept { KeepsAgreement (K.seen self.old.store) self.old.log (K.seen self.new.store) self.new.log }
    {
        let key = self.key_text(array, chunk)?;
        self.kept_at(array, chunk, key.as_str())
    }

    /// Keeps a chunk's cells as the last used, where their generation is still the chunk's and a store holds the array; else
    /// nothing changes. No call of the store. The cells are to be those of a look, at this turn or an earlier one.
    ///
    /// # Errors
    /// Want of memory alone.
    pub fn settle(
        &mut self,
        array: u64,
        chunk: &[u64],
        snapshot: Snapshot,
    ) -> Result<(), AllocError>
        requires agrees { IsState (K.seen self.old.store) self.old.log }
        requires chunk { IsChunkOf self.old.log.events (record { array = array; index = chunk.now }) }
        ensures after { OnOk result ((k : Known) → known_after self.old.log.events array ≡ Some k
            → self.new.log ≡ settled self.old.log k (chunk_key k chunk.now) snapshot) }
        ensures err { OnErr result (self.new.log ≡ self.old.log) }
        ensures store { self.new.store ≡ self.old.store }
        ensures kept { KeepsSettled (K.seen self.old.store) self.old.log
            (record { array = array; index = chunk.now }) snapshot (K.seen self.new.store) self.new.log }
    {
        let key = self.key_text(array, chunk)?;
        self.settle_at(array, chunk, key, snapshot)
    }

    /// A new array that begins with these numbers. The run holds it, as one chunk; there is no call of the store.
    ///
    /// # Errors
    /// Want of memory alone.
    pub fn open_local(&mut self, owner: u32, start: Dense) -> Result<Opened, AllocError>
        requires agrees { IsState (K.seen self.old.store) self.old.log }
        requires small { cell_count (map (max 1) start.shape) ≤ 2 ^ 22 }
        ensures array { IfOk result (λ o. o.array
            ≡ new_ref self.old.log.events (given_info (next_array self.old.log.events) start)) }
        ensures event { IfOk result (λ o. o.event ≡ Some (length self.old.log.events + 1)) }
        ensures after { OnOk result (self.new.log
            ≡ entered self.old.log owner (given_info (next_array self.old.log.events) start)
            (Some (record { generation = length self.old.log.events + 1; cells = start }))) }
        ensures err { OnErr result (self.new.log ≡ self.old.log) }
        ensures store { self.new.store ≡ self.old.store }
        ensures kept { KeepsAgreement (K.seen self.old.store) self.old.log (K.seen self.new.store) self.new.log }
    {
        let cells = start.copy(self.alloc)?;
        self.open_given(owner, start, cells)
    }

    /// Opens an array with numbers that are given twice: for the event, and for the cells.
    fn open_given(&mut self, owner: u32, start: Dense, cells: Dense) -> Result<Opened, AllocError>
        requires agrees { IsState (K.seen self.old.store) self.old.log }
        requires small { cell_count (map (max 1) start.shape) ≤ 2 ^ 22 }
        requires same { cells ≡ start }
        ensures array { IfOk result (λ o. o.array
            ≡ new_ref self.old.log.events (given_info (next_array self.old.log.events) start)) }
        ensures event { IfOk result (λ o. o.event ≡ Some (length self.old.log.events + 1)) }
        ensures after { OnOk result (self.new.log
            ≡ entered self.old.log owner (given_info (next_array self.old.log.events) start)
            (Some (record { generation = length self.old.log.events + 1; cells = start }))) }
        ensures err { OnErr result (self.new.log ≡ self.old.log) }
        ensures store { self.new.store ≡ self.old.store }
        ensures kept { KeepsAgreement (K.seen self.old.store) self.old.log (K.seen self.new.store) self.new.log }
    {
        let _ = start.shape();
        let event = self.events().len() as u64 + 1;
        let number = self.records.array_count();
        let snapshot = as_snapshot(self.alloc, event, cells)?;
        let new = given_array(self.alloc, number, start)?;
        self.enter_given(owner, new, snapshot)
    }

    /// Enters an array of the run with its cells.
    fn enter_given(
        &mut self,
        owner: u32,
        new: NewArray,
        cells: Snapshot,
    ) -> Result<Opened, AllocError>
        requires agrees { IsState (K.seen self.old.store) self.old.log }
        requires given { IsGiven self.old.log.events new cells }
        requires few { length self.old.log.events + 1 < 2 ^ 64 }
        ensures array { IfOk result (λ o. o.array ≡ new.array) }
        ensures event { IfOk result (λ o. o.event ≡ Some (length self.old.log.events + 1)) }
        ensures after { OnOk result (self.new.log ≡ entered self.old.log owner new.info (Some cells)) }
        ensures err { OnErr result (self.new.log ≡ self.old.log) }
        ensures store { self.new.store ≡ self.old.store }
        ensures kept { KeepsAgreement (K.seen self.old.store) self.old.log (K.seen self.new.store) self.new.log }
    {
        self.records.reserve()?;
        Ok(add_given(&mut self.records, owner, new, cells))
    }
}
