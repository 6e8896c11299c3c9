// The chunks that a new shape cuts, one after another.
ghost use Rattle.std.specs.Prelude.{◌≡◌, ◌<◌, ◌≤◌, ◌∷◌, [], IfOk, drop, length, slice_index_or};
ghost use Rattle.std.specs.List.{AllByRecursion};
ghost use Rattle.cells.specs.Shapes.{IsChunkShape};
ghost use Rattle.chunk_laying.specs.Behind.{AreBehind, IsCounted, chunks_of};
ghost use Rattle.chunk_laying.specs.Resized.{cut_indices};

use crate::counting::{Counts, MANY, all_with, count_cut, cut_with, whole_along};
use cells::{List, Sizes};
use std::alloc::{AllocError, Global};

/// The indices of all chunks that a new shape of an array cuts, in lexical order: those with a cell in the old shape and not in
/// the new one. `count_cut` tells whether there are more than 65,536. For each of them it takes a few steps a dimension, however
/// many other chunks there are.
///
/// # Errors
///
/// `AllocError` where there is no memory.
pub fn cut_chunks(
    alloc: Global,
    chunk_shape: &[u64],
    old: &[u64],
    new: &[u64],
) -> Result<List<Sizes>, AllocError>
    requires chunks { IsChunkShape chunk_shape.now }
    requires old { length old.now ≡ length chunk_shape.now }
    requires new { length new.now ≡ length chunk_shape.now }
    requires few { length (cut_indices chunk_shape.now old.now new.now) ≤ 65536 }
    ensures { IfOk result (λ chunks. chunks ≡ cut_indices chunk_shape.now old.now new.now) }
{
    let behind = counts_behind(alloc, chunk_shape, old, new)?;
    chunks_in_order(alloc, chunk_shape, old, new, &behind)
}

// For each dimension how many chunks there are behind it, and how many of them are cut.
fn counts_behind(
    alloc: Global,
    chunk_shape: &[u64],
    old: &[u64],
    new: &[u64],
) -> Result<Vec<Counts>, AllocError>
    requires chunks { IsChunkShape chunk_shape.now }
    requires old { length old.now ≡ length chunk_shape.now }
    requires new { length new.now ≡ length chunk_shape.now }
    ensures size { IfOk result (λ behind. length behind.items ≡ length chunk_shape.now) }
    ensures counts { IfOk result (λ behind. AreBehind chunk_shape.now old.now new.now behind.items) }
{
    let mut behind = vec![in alloc; Counts { all: 1, cut: 0 }; chunk_shape.len()]?;
    count_behind(&mut behind, chunk_shape, old, new);
    Ok(behind)
}

fn count_behind(behind: &mut [Counts], chunk_shape: &[u64], old: &[u64], new: &[u64])
    requires chunks { IsChunkShape chunk_shape.now }
    requires behind { length behind.old ≡ length chunk_shape.now }
    requires old { length old.now ≡ length chunk_shape.now }
    requires new { length new.now ≡ length chunk_shape.now }
    ensures { AreBehind chunk_shape.now old.now new.now behind.new }
{
    let mut all = 1u64;
    let mut cut = 0u64;
    for k in (0..chunk_shape.len()).rev() {
        behind[k] = Counts { all, cut };
        let count = old[k].div_ceil(chunk_shape[k]);
        let whole = whole_along(old[k], new[k], chunk_shape[k], count);
        cut = cut_with(count, whole, all, cut);
        all = all_with(count, all);
    }
}

fn chunks_in_order(
    alloc: Global,
    chunk_shape: &[u64],
    old: &[u64],
    new: &[u64],
    behind: &[Counts],
) -> Result<List<Sizes>, AllocError>
    requires chunks { IsChunkShape chunk_shape.now }
    requires old { length old.now ≡ length chunk_shape.now }
    requires new { length new.now ≡ length chunk_shape.now }
    requires size { length behind.now ≡ length chunk_shape.now }
    requires behind { AreBehind chunk_shape.now old.now new.now behind.now }
    requires few { length (cut_indices chunk_shape.now old.now new.now) ≤ 65536 }
    ensures { IfOk result (λ chunks. chunks ≡ cut_indices chunk_shape.now old.now new.now) }
{
    let count = count_of(chunk_shape, old, new);
    let mut chunks = Vec::with_capacity(alloc, count as usize)?;
    for place in 0..count {
        chunks.push(chunk_at(alloc, chunk_shape, old, new, behind, place)?)?;
    }
    Ok(List::wrap(chunks))
}

// How many chunks are cut.
fn count_of(chunk_shape: &[u64], old: &[u64], new: &[u64]) -> u64
    requires chunks { IsChunkShape chunk_shape.now }
    requires old { length old.now ≡ length chunk_shape.now }
    requires new { length new.now ≡ length chunk_shape.now }
    requires few { length (cut_indices chunk_shape.now old.now new.now) ≤ 65536 }
    ensures { result ≡ length (cut_indices chunk_shape.now old.now new.now) }
{
    match count_cut(chunk_shape, old, new) {
        Some(count) => count,
        None => unreachable!(),
    }
}

// The chunk at a place among those that are cut.
fn chunk_at(
    alloc: Global,
    chunk_shape: &[u64],
    old: &[u64],
    new: &[u64],
    behind: &[Counts],
    place: u64,
) -> Result<Sizes, AllocError>
    requires chunks { IsChunkShape chunk_shape.now }
    requires old { length old.now ≡ length chunk_shape.now }
    requires new { length new.now ≡ length chunk_shape.now }
    requires size { length behind.now ≡ length chunk_shape.now }
    requires behind { AreBehind chunk_shape.now old.now new.now behind.now }
    requires below { place < length (cut_indices chunk_shape.now old.now new.now) }
    requires few { place ≤ 65536 }
    ensures { IfOk result (λ chunk. chunk
        ≡ slice_index_or (cut_indices chunk_shape.now old.now new.now) place []) }
{
    let mut chunk = Vec::with_capacity(alloc, chunk_shape.len())?;
    let mut here = Along {
        index: 0,
        is_cut: false,
        place,
    };
    for k in 0..chunk_shape.len() {
        here = first_along(
            &chunk_shape[k..],
            &old[k..],
            &new[k..],
            behind[k],
            here.is_cut,
            here.place,
        );
        chunk.push(here.index)?;
    }
    Ok(Sizes::wrap(chunk))
}

// Where a chunk lies along a dimension: its number there, whether it is cut along this dimension or one before, and its place
// among the chunks behind it. These are all that there are where it is cut, else those that are cut.
#[derive(Clone, Copy)]
struct Along {
    index: u64,
    is_cut: bool,
    place: u64,
}

// Where the chunk at a place lies along the first dimension. Those that keep their cells along it come first, and of them the
// ones that are cut behind it.
fn first_along(
    chunk_shape: &[u64],
    old: &[u64],
    new: &[u64],
    behind: Counts,
    is_cut: bool,
    place: u64,
) -> Along
    requires some { 0 < length chunk_shape.now }
    requires chunks { AllByRecursion (λ n. 0 < n) chunk_shape.now }
    requires old { length old.now ≡ length chunk_shape.now }
    requires new { length new.now ≡ length chunk_shape.now }
    requires behind { IsCounted (drop 1 chunk_shape.now) (drop 1 old.now) (drop 1 new.now) behind.all behind.cut }
    requires below { place < length (chunks_of is_cut chunk_shape.now old.now new.now) }
    requires few { place ≤ 65536 }
    ensures chunk { slice_index_or (chunks_of is_cut chunk_shape.now old.now new.now) place []
        ≡ result.index ∷ slice_index_or
        (chunks_of result.is_cut (drop 1 chunk_shape.now) (drop 1 old.now) (drop 1 new.now)) result.place [] }
    ensures below { result.place
        < length (chunks_of result.is_cut (drop 1 chunk_shape.now) (drop 1 old.now) (drop 1 new.now)) }
    ensures few { result.place ≤ 65536 }
{
    if is_cut {
        return Along {
            index: place / behind.all,
            is_cut,
            place: place % behind.all,
        };
    }
    let count = old[0].div_ceil(chunk_shape[0]);
    let whole = whole_along(old[0], new[0], chunk_shape[0], count);
    let kept = whole.min(MANY) * behind.cut;
    if place < kept {
        Along {
            index: place / behind.cut,
            is_cut,
            place: place % behind.cut,
        }
    } else {
        let past = place - kept;
        Along {
            index: whole + past / behind.all,
            is_cut: true,
            place: past % behind.all,
        }
    }
}
