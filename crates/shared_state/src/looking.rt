// Chunks and arrays as they are, and whether changes go together.
ghost use Rattle.std.specs.Prelude.{◌≡◌, ◌↔◌, IsTrue, IsSome, Some, IfOk, false, string_bytes};
ghost use Rattle.kv_face.specs.Store.{keys_of, are_together};
ghost use Rattle.state_laws.specs.Arrays.{known_after, Known, form_of, is_local};
ghost use Rattle.state_laws.specs.Commit.{are_together as are_keys_together};
ghost use Rattle.state_laws.specs.Agreement.{IsState};
ghost use Rattle.state_laws.specs.Fetches.{IsChunkOf, bounds_in};
ghost use Rattle.state_laws.specs.Chunks.{chunk_key, metadata_key};
ghost use Rattle.state_laws.specs.Metadata.{with_shape};

use crate::state::State;
use cells::{Name, copy_sizes};
use kv_face::{Change, KvStore};
use state_laws::{Bounds, Form, chunk_key, is_index_of, metadata_key, together};
use std::alloc::AllocError;

impl<K: KvStore> State<K> {
    /// Whether the run has an array of this number.
    pub fn has_array(&self, array: u64) -> bool
        requires agrees { IsState (K.seen self.now.store) self.now.log }
        ensures { IsTrue result ↔ IsSome (known_after self.now.log.events array) }
    {
        array < self.records.array_count()
    }

    /// Whether this is the index of a chunk of an array of the run, also past its shape.
    pub fn is_chunk(&self, array: u64, chunk: &[u64]) -> bool
        requires agrees { IsState (K.seen self.now.store) self.now.log }
        ensures { IsTrue result ↔ IsChunkOf self.now.log.events (record { array = array; index = chunk.now }) }
    {
        self.has_array(array) && is_index_of(self.records.info(array), chunk)
    }

    /// Whether the store makes these changes in one call. Takes no memory.
    pub fn together(&self, changes: &[Change]) -> bool
        ensures changes { result ≡ are_together ((K.seen self.now.store).prefixes) changes.now 0 }
        ensures keys { result ≡ are_keys_together ((K.seen self.now.store).prefixes) (keys_of changes.now) }
    {
        together(&self.store, changes)
    }

    /// The key of a chunk, also past the array's shape.
    ///
    /// # Errors
    /// Want of memory alone.
    pub fn key(&self, array: u64, chunk: &[u64]) -> Result<Name, AllocError>
        requires { IsChunkOf self.now.log.events (record { array = array; index = chunk.now }) }
        ensures { IfOk result (λ name. (k : Known) → known_after self.now.log.events array ≡ Some k
            → name ≡ chunk_key k chunk.now) }
    {
        Ok(Name::wrap(self.key_text(array, chunk)?))
    }

    pub(crate) fn key_text(&self, array: u64, chunk: &[u64]) -> Result<String, AllocError>
        requires { IsChunkOf self.now.log.events (record { array = array; index = chunk.now }) }
        ensures { IfOk result (λ name. (k : Known) → known_after self.now.log.events array ≡ Some k
            → string_bytes name ≡ chunk_key k chunk.now) }
    {
        let info = self.records.info(array);
        let opened = self.records.opened(array);
        chunk_key(self.alloc, &info.home, opened, chunk)
    }

    /// The key of a stored array's metadata.
    ///
    /// # Errors
    /// Want of memory alone.
    pub fn metadata_key(&self, array: u64) -> Result<Name, AllocError>
        requires { (k : Known) × (known_after self.now.log.events array ≡ Some k) × (is_local k.info.home ≡ false) }
        ensures { IfOk result (λ name. (k : Known) → known_after self.now.log.events array ≡ Some k
            → metadata_key k ≡ Some name) }
    {
        let Some(key) = metadata_key(self.alloc, &self.records.info(array).home)? else {
            unreachable!();
        };
        Ok(Name::wrap(key))
    }

    /// An array's present shape, and the number of the event that gave it.
    ///
    /// # Errors
    /// Want of memory alone.
    pub fn bounds(&self, array: u64) -> Result<Bounds, AllocError>
        requires { IsSome (known_after self.now.log.events array) }
        ensures { IfOk result (λ b. (k : Known) → known_after self.now.log.events array ≡ Some k
            → b ≡ bounds_in self.now.log.events array k) }
    {
        let shape = copy_sizes(self.alloc, self.records.shape(array))?;
        Ok(Bounds {
            shape,
            resized: self.records.resized(array),
        })
    }

    /// The number of the event that gave an array its present shape, 0 where that was its opening. Takes no memory.
    pub fn resized(&self, array: u64) -> u64
        requires { IsSome (known_after self.now.log.events array) }
        ensures { (k : Known) → known_after self.now.log.events array ≡ Some k
            → result ≡ (bounds_in self.now.log.events array k).resized }
    {
        self.records.resized(array)
    }

    /// How an array's chunks are stored, with its present shape; of a local array `Form::Local`. Takes no memory.
    pub fn form(&self, array: u64) -> &Form
        requires { IsSome (known_after self.now.log.events array) }
        ensures { (k : Known) → known_after self.now.log.events array ≡ Some k
            → result.now ≡ with_shape (form_of k.info.home) k.shape }
    {
        self.records.form(array)
    }

    /// A copy of `form`.
    ///
    /// # Errors
    /// Want of memory alone.
    pub fn info(&self, array: u64) -> Result<Form, AllocError>
        requires { IsSome (known_after self.now.log.events array) }
        ensures { IfOk result (λ form. (k : Known) → known_after self.now.log.events array ≡ Some k
            → form ≡ with_shape (form_of k.info.home) k.shape) }
    {
        self.records.form(array).copy(self.alloc)
    }
}
