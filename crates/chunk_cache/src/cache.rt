ghost use Rattle.std.specs.Prelude.{◌≡◌, ◌<◌, ◌≤◌, ◌^◌, ◌↔◌, None, [], ◌∷◌, length, string_bytes, OnOk, OnErr, IfOk, IfErr, IsOk, IsSome, IsTrue};
ghost use Rattle.chunk_cache.specs.Snapshot.{size_of};
ghost use Rattle.chunk_cache.specs.Cache.{CacheList, IsCache, IsLongestFront, most_chunks, kept, without, after_hit, after_keep, after_drop};

use crate::entries::{cut, put_first, take_out};
use crate::refused::KeepRefused;
use crate::snapshot::Snapshot;
use lru::LruCache;
use std::alloc::{AllocError, Global};
use std::marker::Model;

/// Chunks under their keys, the last used first, within a limit of cells and of 65,536 chunks. A contract sees the limit and
/// the list.
#[derive(Debug, Drop)]
pub struct ChunkCache {
    entries: LruCache<String, Snapshot>,
    cells: u64,
    limit: u64,
}

impl Model for ChunkCache {
    ghost use Rattle.std.specs.Prelude.{◌≡◌, ◌-◌, ◌^◌};
    ghost use Rattle.chunk_cache.specs.Cache.{CacheList, IsCache, cells_of};
    ghost use Rattle.chunk_cache.specs.Kept.{entries_of};

    ghost Value = { CacheList };

    ghost view = { λ cache. record { limit = cache.limit; entries = entries_of cache.entries.entries } };

    ghost invariant = { λ cache.
        IsCache (record { limit = cache.limit; entries = entries_of cache.entries.entries })
        × (cache.cells ≡ cells_of (entries_of cache.entries.entries)) × (cache.entries.cap ≡ 2 ^ 64 - 1) };
}

impl ChunkCache {
    /// An empty cache that keeps at most so many cells.
    ///
    /// # Errors
    ///
    /// `AllocError` where there is no memory.
    pub fn new(alloc: Global, limit: u64) -> Result<ChunkCache, AllocError>
        requires { limit ≤ 2 ^ 27 }
        ensures { IfOk result (λ cache. cache ≡ record { limit = limit; entries = [] }) }
    {
        Ok(ChunkCache {
            entries: LruCache::unbounded(alloc)?,
            cells: 0,
            limit,
        })
    }

    /// The most cells that are kept.
    pub fn limit(&self) -> u64
        ensures value { result ≡ self.now.limit }
        ensures bounds { IsCache self.now }
    {
        self.limit
    }

    /// How many chunks are kept.
    pub fn len(&self) -> usize
        ensures value { result ≡ length self.now.entries }
        ensures bounds { IsCache self.now }
    {
        self.entries.len()
    }

    /// Whether no chunk is kept.
    pub fn is_empty(&self) -> bool
        ensures { IsTrue result ↔ (self.now.entries ≡ []) }
    {
        self.entries.is_empty()
    }

    /// The chunk that is kept under a key, which becomes the last used.
    ///
    /// # Errors
    ///
    /// `AllocError` where the chunk can't be shared any more. Nothing has changed then.
    pub fn hit(&mut self, key: &str) -> Result<Option<Snapshot>, AllocError>
        ensures value { IfOk result (λ found. found ≡ kept key.now self.old.entries) }
        ensures after { OnOk result (self.new ≡ record self.old { entries = after_hit key.now self.old.entries }) }
        ensures err { OnErr result (self.new ≡ self.old) }
        ensures miss { kept key.now self.old.entries ≡ None → IsOk result }
    {
        let Some(snapshot) = self.entries.peek(key) else {
            return Ok(None);
        };
        let shared = snapshot.share()?;
        self.entries.promote(key);
        Ok(Some(shared))
    }

    /// Keeps a chunk under a key, as the last used, in place of what was kept under the key. The least recently used chunks go
    /// where there is no room for them. A chunk of more cells than the limit isn't kept, and its key goes.
    ///
    /// # Errors
    ///
    /// `KeepRefused` where there is no memory, with the key and the chunk. Nothing has changed then.
    pub fn keep(&mut self, key: String, snapshot: Snapshot) -> Result<(), KeepRefused>
        ensures ok { OnOk result (self.new ≡
            record self.old { entries = after_keep self.old.limit (string_bytes key) snapshot self.old.entries }) }
        // A chunk within the limit is kept with as many of the others as there is room for, the last used first.
        ensures longest { OnOk result (size_of snapshot ≤ self.old.limit → IsLongestFront self.old.limit most_chunks
            ((string_bytes key, snapshot) ∷ without (string_bytes key) self.old.entries) self.new.entries) }
        ensures err { OnErr result (self.new ≡ self.old) }
        ensures handed_back { IfErr result (λ refused. (refused.key ≡ string_bytes key)
            × (refused.snapshot ≡ snapshot)) }

        // A chunk that is too large, and one under a key that is there, take no memory.
        ensures large { self.old.limit < size_of snapshot → IsOk result }
        ensures known { IsSome (kept (string_bytes key) self.old.entries) → IsOk result }
    {
        let size = snapshot.size();
        if size > self.limit {
            self.drop_key(key.as_str());
            return Ok(());
        }
        let gone = put_first(&mut self.entries, key, snapshot)?;
        self.cells = cut(&mut self.entries, self.cells + size - gone, self.limit);
        Ok(())
    }

    /// Drops what is kept under a key.
    pub fn drop_key(&mut self, key: &str)
        ensures after { self.new ≡ record self.old { entries = after_drop key.now self.old.entries } }
        ensures gone { kept key.now self.new.entries ≡ None }
    {
        self.cells -= take_out(&mut self.entries, key);
    }
}
