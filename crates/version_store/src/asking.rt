// What the versions of all chunks tell.
ghost use Rattle.std.specs.Prelude.{◌≡◌, ◌≤◌, ◌↔◌, ℕ, length, All, IfOk, IfSome, None, IfNone, IsTrue};
ghost use Rattle.history.specs.Arrays.{Known};
ghost use Rattle.history.specs.Chunks.{Chunk};
ghost use Rattle.history.specs.Generations.{IsTouched};
ghost use Rattle.history.specs.History.{History};
ghost use Rattle.chunk_versions.specs.Marks.{HasCasts};
ghost use Rattle.version_store.specs.Asked.{AreShownAt, AreNeverShown, TellsShown};
ghost use Rattle.version_store.specs.Ids.{found, IsChunkIn};
ghost use Rattle.version_store.specs.Stores.{IsStoreOf};

use crate::putting::new_chunk;
use crate::showing::{mark_in, shows_now, touches};
use crate::store::VersionStore;
use cast_driver::Chain;
use chunk_versions::AskedCell;
use std::alloc::{AllocError, Global};

impl VersionStore {
    /// A moment from `from` on at which the chunk of this id shows all the cells as they were asked for, each through its casts; `None` where
    /// there is none. The time is that of `ChunkVersions::find_mark`.
    ///
    /// # Errors
    /// `AllocError` where memory is wanting.
    pub fn find_mark(
        &self,
        alloc: Global,
        id: &[u64],
        from: u64,
        casts: &[Chain],
        asked: &[AskedCell],
    ) -> Result<Option<u64>, AllocError>
        requires { All (HasCasts casts.now) asked.now }
        ensures some { IfOk result (λ mark. IfSome mark (AreShownAt self.now id.now casts.now asked.now from)) }
        ensures none { IfOk result (λ mark. IfNone mark (AreNeverShown self.now id.now casts.now asked.now from)) }
    {
        match self.chunks.get(id) {
            Some(chunk) => mark_in(alloc, chunk, from, casts, asked),
            None => self.mark_in_new(alloc, id, from, casts, asked),
        }
    }

    fn mark_in_new(
        &self,
        alloc: Global,
        id: &[u64],
        from: u64,
        casts: &[Chain],
        asked: &[AskedCell],
    ) -> Result<Option<u64>, AllocError>
        requires casts { All (HasCasts casts.now) asked.now }
        requires none { found self.now.chunks.entries id.now ≡ None }
        ensures some { IfOk result (λ mark. IfSome mark (AreShownAt self.now id.now casts.now asked.now from)) }
        ensures none { IfOk result (λ mark. IfNone mark (AreNeverShown self.now id.now casts.now asked.now from)) }
    {
        let chunk = new_chunk(alloc, self.opening_under(id))?;
        mark_in(alloc, &chunk, from, casts, asked)
    }

    /// Whether the chunk of this id shows all the cells as they were asked for, each through its casts, now: behind the words that were put so
    /// far. The time is linear in the cells.
    ///
    /// # Errors
    /// `AllocError` where memory is wanting.
    pub fn shows(
        &self,
        alloc: Global,
        id: &[u64],
        casts: &[Chain],
        asked: &[AskedCell],
    ) -> Result<bool, AllocError>
        requires { All (HasCasts casts.now) asked.now }
        ensures { IfOk result (TellsShown self.now id.now casts.now asked.now) }
    {
        match self.chunks.get(id) {
            Some(chunk) => Ok(shows_now(chunk, casts, asked)),
            None => self.shows_new(alloc, id, casts, asked),
        }
    }

    fn shows_new(
        &self,
        alloc: Global,
        id: &[u64],
        casts: &[Chain],
        asked: &[AskedCell],
    ) -> Result<bool, AllocError>
        requires casts { All (HasCasts casts.now) asked.now }
        requires none { found self.now.chunks.entries id.now ≡ None }
        ensures { IfOk result (TellsShown self.now id.now casts.now asked.now) }
    {
        let chunk = new_chunk(alloc, self.opening_under(id))?;
        Ok(shows_now(&chunk, casts, asked))
    }

    /// Whether the event of this number touched the chunk of this id. The time is logarithmic in the count of events that did.
    pub fn is_touched(&self, id: &[u64], number: u64) -> bool
        ensures { (h : History) (k : Known) (c : Chunk) → IsStoreOf h self.now → IsChunkIn h k c id.now
            → IsTrue result ↔ IsTouched h c number }
    {
        match self.chunks.get(id) {
            Some(chunk) => touches(chunk, number),
            None => self.opening_under(id).opened == number,
        }
    }
}
