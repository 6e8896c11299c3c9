// Words that are put into one chunk.
ghost use Rattle.std.specs.Prelude.{◌≡◌, ◌<◌, ◌≤◌, ◌+◌, ◌++◌, ◌∷◌, [], ℕ, List, length, get_or, All, IsTrue, Some, None, nat_le, slice_index, if◌then◌else◌, OnOk, IfOk};
ghost use Rattle.std.specs.FinMap as finmap;
ghost use Rattle.history.specs.Arrays.{Known};
ghost use Rattle.history.specs.Chunks.{Chunk};
ghost use Rattle.history.specs.History.{History};
ghost use Rattle.history.specs.Legal.{IsLegal};
ghost use Rattle.history.specs.Writes.{Put};
ghost use Rattle.chunk_versions.specs.Moments.{newest};
ghost use Rattle.chunk_versions.specs.Versions.{Versions, IsVersions, word_as_of};
ghost use Rattle.version_laws.specs.Kept.{ArePartVersionsOf};
ghost use Rattle.version_store.specs.Openings.{IsNew};
ghost use Rattle.version_store.specs.declared.placed.PlacedWord.{PlacedWord as Word};
ghost use Rattle.version_store.specs.Putting.{no_word, IsWordOf, HasRoom, AreOver};

use crate::opening::Opening;
use crate::placed::PlacedWord;
use cells::Dense;
use chunk_versions::ChunkVersions;
use std::alloc::{AllocError, Global};

/// Puts words at places of a chunk, one after another, by the event of this number.
pub(crate) fn put_all(
    alloc: Global,
    chunk: &mut ChunkVersions,
    number: u64,
    words: &[PlacedWord],
) -> Result<(), AllocError>
    requires { IsVersions chunk.old → HasRoom number words.now chunk.old }
    ensures over { OnOk result (AreOver number words.now chunk.old chunk.new) }
    ensures valid { IsVersions chunk.old }
{
    let _ = chunk.newest();
    put_each(alloc, chunk, number, words)
}

fn put_each(
    alloc: Global,
    chunk: &mut ChunkVersions,
    number: u64,
    words: &[PlacedWord],
) -> Result<(), AllocError>
    requires { HasRoom number words.now chunk.old }
    ensures { OnOk result (AreOver number words.now chunk.old chunk.new) }
{
    for i in 0..words.len() {
        put_one(alloc, chunk, number, word_at(words, i))?;
    }
    Ok(())
}

fn word_at(words: &[PlacedWord], at: usize) -> PlacedWord
    requires { at < length words.now }
    ensures { result ≡ get_or words.now at no_word }
{
    words[at]
}

fn put_one(
    alloc: Global,
    chunk: &mut ChunkVersions,
    number: u64,
    word: PlacedWord,
) -> Result<(), AllocError>
    requires newest { newest chunk.old.touches ≤ number }
    requires place { word.place < chunk.old.size }
    ensures over { OnOk result ((h : History) (k : Known) (c : Chunk) (puts : List Put) (p : Put)
        → IsLegal finmap.empty h → number ≡ length h + 1 → IsWordOf h k c word p
        → ArePartVersionsOf h k c puts chunk.old → ArePartVersionsOf h k c (puts ++ p ∷ []) chunk.new) }
    ensures newest { OnOk result (newest chunk.new.touches ≤ number) }
    ensures size { chunk.new.size ≡ chunk.old.size }
{
    let _ = chunk.newest();
    chunk.put(alloc, number, word.place as usize, word.word)?;
    Ok(())
}

/// The chunk of a local array that the event of this number opened, with the array's own words.
pub(crate) fn local_chunk(
    alloc: Global,
    number: u64,
    start: &Dense,
) -> Result<ChunkVersions, AllocError>
    ensures size { IfOk result (λ v. v.size ≡ length start.now.words) }
    ensures touches { IfOk result (λ v. v.touches ≡ number ∷ []) }
    ensures words { IfOk result (λ v. (m place : ℕ) → place < length start.now.words
        → word_as_of v m place ≡ (if nat_le number m then Some (slice_index start.now.words place) else None)) }
{
    let mut chunk = ChunkVersions::new(alloc, number, start.count(), 0)?;
    for place in 0..start.count() {
        chunk.put(alloc, number, place, start.get(place))?;
    }
    Ok(chunk)
}

/// Whether a chunk has these places, and no event behind the one of this number touched it.
pub(crate) fn room_in(chunk: &ChunkVersions, number: u64, words: &[PlacedWord]) -> bool
    ensures has { IsTrue result → HasRoom number words.now chunk.now }
    ensures lacks { HasRoom number words.now chunk.now → IsTrue result }
    ensures valid { IsVersions chunk.now }
{
    if number < chunk.newest() {
        return false;
    }
    are_places(chunk.size(), words)
}

/// The same of a chunk that only its opening touched.
pub(crate) fn room_in_new(opening: Opening, number: u64, words: &[PlacedWord]) -> bool
    ensures has { IsTrue result → (v : Versions) → IsNew opening v → HasRoom number words.now v }
    ensures lacks { opening.opened ≤ number → All (λ (w : Word). w.place < opening.size) words.now → IsTrue result }
{
    if number < opening.opened {
        return false;
    }
    are_places(opening.size, words)
}

fn are_places(size: usize, words: &[PlacedWord]) -> bool
    ensures are { IsTrue result → All (λ (w : Word). w.place < size) words.now }
    ensures lack { All (λ (w : Word). w.place < size) words.now → IsTrue result }
{
    for i in 0..words.len() {
        if word_at(words, i).place as usize >= size {
            return false;
        }
    }
    true
}
