// How the chunks of arrays begin.
ghost use Rattle.std.specs.Prelude.{◌≡◌, ◌≤◌, ◌^◌, ℕ, List, true, get_or, IfOk};
ghost use Rattle.cells.specs.Places.{cell_count};
ghost use Rattle.cells.specs.Shapes.{is_inside};
ghost use Rattle.history.specs.Arrays.{chunk_shape};
ghost use Rattle.history.specs.Legal.{IsAsKept};
ghost use Rattle.version_store.specs.Openings.{no_opening};

use cells::{MOST_CHUNK_CELLS, count_cells};
use history::{ArrayInfo, Home};

/// How the chunks of an array begin: by which event, with how many cells, and, where the array is stored, with which word in each.
#[derive(Clone, Copy, Debug)]
pub struct Opening {
    pub(crate) opened: u64,
    pub(crate) size: usize,
    pub(crate) fill: u64,
}

/// How the chunks of an array begin that the event of this number opened.
pub(crate) fn opening_of(number: u64, info: &ArrayInfo) -> Opening
    ensures opened { result.opened ≡ number }
    ensures fill { result.fill ≡ info.now.fill }
    ensures size { IsAsKept info.now info.now.home → (index : List ℕ) → is_inside info.now.shape index ≡ true
        → result.size ≡ cell_count (chunk_shape info.now) }
{
    Opening {
        opened: number,
        size: size_of(info),
        fill: info.fill,
    }
}

// How many cells a chunk of the array has, where the array has a cell.
fn size_of(info: &ArrayInfo) -> usize
    ensures { IsAsKept info.now info.now.home → (index : List ℕ) → is_inside info.now.shape index ≡ true
        → result ≡ cell_count (chunk_shape info.now) }
{
    match &info.home {
        Home::Zarr { meta, .. } => count_of(meta.chunks.items()),
        Home::N5 { meta, .. } => count_of(meta.block.items()),
        Home::Zarr3 { meta, .. } => count_of(meta.chunks.items()),
        Home::Local { start } => start.count(),
    }
}

fn count_of(shape: &[u64]) -> usize
    ensures { cell_count shape.now ≤ 2 ^ 24 → result ≡ cell_count shape.now }
{
    match count_cells(shape, MOST_CHUNK_CELLS) {
        Some(count) => count as usize,
        None => 0,
    }
}

/// How the chunks of an array begin; of one that wasn't opened, `no_opening`.
pub(crate) fn opening_at(arrays: &[Opening], array: u64) -> Opening
    ensures { result ≡ get_or arrays.now array no_opening }
{
    if array < arrays.len() as u64 {
        arrays[array as usize]
    } else {
        Opening {
            opened: 0,
            size: 0,
            fill: 0,
        }
    }
}

/// The number of the array that an id begins with.
pub(crate) fn array_of(id: &[u64]) -> u64
    ensures { result ≡ get_or id.now 0 0 }
{
    if id.is_empty() { 0 } else { id[0] }
}
