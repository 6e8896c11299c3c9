// What the versions of one chunk tell of the cells of a read.
ghost use Rattle.std.specs.Prelude.{◌≡◌, ◌<◌, ◌≤◌, ◌↔◌, ℕ, length, get_or, All, Contains, IfOk, IfSome, IfNone, IsTrue};
ghost use Rattle.chunk_versions.specs.Marks.{HasCasts, no_cell, IsShown, AreShown, IsMark, HasNoMark};
ghost use Rattle.chunk_versions.specs.Moments.{newest};
ghost use Rattle.chunk_versions.specs.Versions.{IsVersions};

use cast_driver::Chain;
use chunk_versions::{AskedCell, ChunkVersions};
use std::alloc::{AllocError, Global};

/// `ChunkVersions::find_mark`, which tells that the versions are those of a chunk.
pub(crate) fn mark_in(
    alloc: Global,
    chunk: &ChunkVersions,
    from: u64,
    casts: &[Chain],
    asked: &[AskedCell],
) -> Result<Option<u64>, AllocError>
    requires { All (HasCasts casts.now) asked.now }
    ensures valid { IsVersions chunk.now }
    ensures some { IfOk result (λ mark. IfSome mark (IsMark chunk.now casts.now asked.now from)) }
    ensures none { IfOk result (λ mark. IfNone mark (HasNoMark chunk.now casts.now asked.now from)) }
{
    let _ = chunk.newest();
    chunk.find_mark(alloc, from, casts, asked)
}

/// `ChunkVersions::is_touched`, which tells that the versions are those of a chunk.
pub(crate) fn touches(chunk: &ChunkVersions, number: u64) -> bool
    ensures valid { IsVersions chunk.now }
    ensures value { IsTrue result ↔ Contains chunk.now.touches number }
{
    let _ = chunk.newest();
    chunk.is_touched(number)
}

/// Whether the cells are shown now as they were asked for.
pub(crate) fn shows_now(chunk: &ChunkVersions, casts: &[Chain], asked: &[AskedCell]) -> bool
    requires { All (HasCasts casts.now) asked.now }
    ensures valid { IsVersions chunk.now }
    ensures value { (m : ℕ) → newest chunk.now.touches ≤ m → IsTrue result ↔ AreShown chunk.now casts.now m asked.now }
{
    let _ = chunk.newest();
    for i in 0..asked.len() {
        if !shows(chunk, casts, cell_at(asked, i)) {
            return false;
        }
    }
    true
}

fn shows(chunk: &ChunkVersions, casts: &[Chain], cell: AskedCell) -> bool
    requires { HasCasts casts.now cell }
    ensures { (m : ℕ) → newest chunk.now.touches ≤ m → IsTrue result ↔ IsShown chunk.now casts.now m cell }
{
    let word = chunk.word(cell.place as usize);
    let chain = &casts[cell.leaf as usize];
    chain.out(word) == cell.word
}

fn cell_at(asked: &[AskedCell], at: usize) -> AskedCell
    requires { at < length asked.now }
    ensures { result ≡ get_or asked.now at no_cell }
{
    asked[at]
}
