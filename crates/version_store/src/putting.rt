// Chunks by their ids, and words that are put into one of them.
ghost use Rattle.std.specs.Prelude.{◌≡◌, ◌∷◌, ℕ, List, length, replicate, Some, None, IsSome, IfOk, OnOk, OnErr, if◌then◌else◌};
ghost use Rattle.std.specs.Str.{bytes_eq};
ghost use Rattle.chunk_versions.specs.Versions.{Versions, IsVersions};
ghost use Rattle.version_store.specs.Ids.{found};
ghost use Rattle.version_store.specs.Openings.{IsKeptAs, IsNew};
ghost use Rattle.version_store.specs.Opened.{HasEntered};
ghost use Rattle.version_store.specs.Putting.{HasRoom, HasPut};

use crate::filling::{local_chunk, put_all};
use crate::opening::Opening;
use crate::placed::PlacedWord;
use cells::Dense;
use chunk_versions::ChunkVersions;
use indexmap::IndexMap;
use std::alloc::{AllocError, Global};

/// The versions of chunks by their ids.
pub(crate) type Table = IndexMap<Vec<u64>, ChunkVersions>;

/// Puts words at places of a chunk, one after another, by the event of this number.
pub(crate) fn put_in(
    alloc: Global,
    table: &mut Table,
    opening: Opening,
    number: u64,
    id: &[u64],
    words: &[PlacedWord],
) -> Result<(), AllocError>
    requires { (v : Versions) → IsKeptAs opening (found table.old.entries id.now) v → IsVersions v
        → HasRoom number words.now v }
    ensures { OnOk result (HasPut opening number id.now words.now table.old.entries table.new.entries) }
{
    if table.contains_key(id) {
        put_kept(alloc, table, opening, number, id, words)
    } else {
        put_new(alloc, table, opening, number, id, words)
    }
}

fn put_kept(
    alloc: Global,
    table: &mut Table,
    opening: Opening,
    number: u64,
    id: &[u64],
    words: &[PlacedWord],
) -> Result<(), AllocError>
    requires there { IsSome (found table.old.entries id.now) }
    requires room { (v : Versions) → IsKeptAs opening (found table.old.entries id.now) v → IsVersions v
        → HasRoom number words.now v }
    ensures { OnOk result (HasPut opening number id.now words.now table.old.entries table.new.entries) }
{
    let Some(chunk) = table.get_mut(id) else {
        unreachable!();
    };
    put_all(alloc, chunk, number, words)
}

fn put_new(
    alloc: Global,
    table: &mut Table,
    opening: Opening,
    number: u64,
    id: &[u64],
    words: &[PlacedWord],
) -> Result<(), AllocError>
    requires none { found table.old.entries id.now ≡ None }
    requires room { (v : Versions) → IsKeptAs opening (found table.old.entries id.now) v → IsVersions v
        → HasRoom number words.now v }
    ensures { OnOk result (HasPut opening number id.now words.now table.old.entries table.new.entries) }
{
    let mut chunk = new_chunk(alloc, opening)?;
    put_all(alloc, &mut chunk, number, words)?;
    enter(alloc, table, id, chunk)
}

/// A chunk that only the opening of its array touched.
pub(crate) fn new_chunk(alloc: Global, opening: Opening) -> Result<ChunkVersions, AllocError>
    ensures { IfOk result (IsNew opening) }
{
    let chunk = ChunkVersions::new(alloc, opening.opened, opening.size, opening.fill)?;
    Ok(chunk)
}

/// Enters a chunk.
pub(crate) fn enter(
    alloc: Global,
    table: &mut Table,
    id: &[u64],
    chunk: ChunkVersions,
) -> Result<(), AllocError>
    ensures ok { OnOk result ((other : List ℕ) → found table.new.entries other
        ≡ (if bytes_eq id.now other then Some chunk else found table.old.entries other)) }
    ensures err { OnErr result (table.new.entries ≡ table.old.entries) }
{
    let key = Vec::from_slice(alloc, id)?;
    match table.insert(key, chunk) {
        Ok(_) => Ok(()),
        Err(_) => Err(AllocError),
    }
}

/// Enters the one chunk of a local array, which the event of this number opens, with the array's own words.
pub(crate) fn enter_local(
    alloc: Global,
    table: &mut Table,
    array: u64,
    number: u64,
    start: &Dense,
) -> Result<(), AllocError>
    ensures { OnOk result (HasEntered (array ∷ replicate (length start.now.shape) 0) number start.now.words
        table.old.entries table.new.entries) }
{
    let id = local_id(alloc, array, start.shape())?;
    enter_words(alloc, table, &id, number, start)
}

fn enter_words(
    alloc: Global,
    table: &mut Table,
    id: &[u64],
    number: u64,
    start: &Dense,
) -> Result<(), AllocError>
    ensures { OnOk result (HasEntered id.now number start.now.words table.old.entries table.new.entries) }
{
    let chunk = local_chunk(alloc, number, start)?;
    enter(alloc, table, id, chunk)
}

// The id of the one chunk of a local array.
fn local_id(alloc: Global, array: u64, shape: &[u64]) -> Result<Vec<u64>, AllocError>
    ensures { IfOk result (λ id. id.items ≡ array ∷ replicate (length shape.now) 0) }
{
    let mut id = vec![in alloc; 0; shape.len()]?;
    id.insert(0, array)?;
    Ok(id)
}
