ghost use Rattle.std.specs.Prelude.{◌≡◌, ◌+◌, ◌-◌, ◌<◌, ◌∷◌, length, take, string_bytes, OnOk, OnErr, IfOk, IfErr, IsOk, IsSome};
ghost use Rattle.std.specs.List.{IsDistinct};
ghost use Rattle.std.specs.Map.{keys_of, lookup, remove_entry};
ghost use Rattle.std.specs.Option.{option_map_or};
ghost use Rattle.std.specs.Str.{bytes_eq};
ghost use Rattle.lru.specs.LruCache.{lru_cache, last_entry};
ghost use Rattle.chunk_cache.specs.Snapshot.{size_of};
ghost use Rattle.chunk_cache.specs.Cache.{cells_of, kept, without, fitting, most_chunks};
ghost use Rattle.chunk_cache.specs.Kept.{entries_of};

use crate::refused::KeepRefused;
use crate::snapshot::Snapshot;
use cells::Name;
use lru::LruCache;

/// The most chunks that a cache keeps.
const MOST_CHUNKS: usize = 65_536;

/// Puts a chunk first, in place of what was kept under its key, and tells how many cells went.
pub(crate) fn put_first(
    entries: &mut LruCache<String, Snapshot>,
    key: String,
    snapshot: Snapshot,
) -> Result<u64, KeepRefused>
    requires room { length entries.old.entries < entries.old.cap }
    requires apart { IsDistinct bytes_eq (keys_of (entries_of entries.old.entries)) }
    ensures entries { OnOk result (entries_of entries.new.entries ≡
        (string_bytes key, snapshot) ∷ without (string_bytes key) (entries_of entries.old.entries)) }
    ensures cells { IfOk result (λ gone.
        cells_of (entries_of entries.new.entries) + gone
        ≡ cells_of (entries_of entries.old.entries) + size_of snapshot) }
    ensures cap { entries.new.cap ≡ entries.old.cap }
    ensures err { OnErr result (entries.new ≡ entries.old) }
    ensures handed_back { IfErr result (λ refused. (refused.key ≡ string_bytes key) × (refused.snapshot ≡ snapshot)) }
    ensures succeeds { IsSome (kept (string_bytes key) (entries_of entries.old.entries)) → IsOk result }
{
    match entries.put(key, snapshot) {
        Ok(Some(old)) => Ok(old.size()),
        Ok(None) => Ok(0),
        Err(refused) => {
            let (key, snapshot) = refused.value;
            Err(KeepRefused {
                key: Name::wrap(key),
                snapshot,
            })
        }
    }
}

/// Takes out what is kept under a key, and tells how many cells went.
pub(crate) fn take_out(entries: &mut LruCache<String, Snapshot>, key: &str) -> u64
    ensures entries { entries.new ≡
        lru_cache (remove_entry (λ text. bytes_eq key.now (string_bytes text)) entries.old.entries) entries.old.cap }
    ensures cells { result ≡ option_map_or size_of (lookup (λ text.
        bytes_eq key.now (string_bytes text)) entries.old.entries) 0 }
{
    match entries.pop(key) {
        Some(gone) => gone.size(),
        None => 0,
    }
}

/// Takes last entries out until there are at most `limit` cells and 65,536 chunks. `total` counts the cells before; the result
/// counts those that stay.
pub(crate) fn cut(entries: &mut LruCache<String, Snapshot>, total: u64, limit: u64) -> u64
    requires { total ≡ cells_of (entries_of entries.old.entries) }
    ensures entries { entries_of entries.new.entries ≡ fitting limit most_chunks (entries_of entries.old.entries) }
    ensures cap { entries.new.cap ≡ entries.old.cap }
    ensures total { result ≡ cells_of (entries_of entries.new.entries) }
{
    let mut left = total;
    while left > limit || entries.len() > MOST_CHUNKS {
        left -= take_last(entries);
    }
    left
}

/// Takes out the entry that was used least recently, and tells how many cells went.
fn take_last(entries: &mut LruCache<String, Snapshot>) -> u64
    ensures entries { entries.new ≡
        lru_cache (take (length entries.old.entries - 1) entries.old.entries) entries.old.cap }
    ensures cells { result ≡ option_map_or (λ entry. size_of entry.1) (last_entry entries.old.entries) 0 }
{
    match entries.pop_lru() {
        Some((_, last)) => last.size(),
        None => 0,
    }
}
