// The runs of a view as the product of its first dimensions and the others.
ghost use Rattle.std.specs.Prelude.{true, false, ◌≡◌, ◌≢◌, ◌≤◌, ◌<◌, ◌^◌, [], pos, unsigned_abs, IsTrue, IfOk, OnOk, length, map, slice_index_or};
ghost use Rattle.std.specs.List.{All, list_all};
ghost use Rattle.cells.specs.Places.{IsInside, cell_count};
ghost use Rattle.index_transform.specs.Cells.{is_finite, cells_of};
ghost use Rattle.index_transform.specs.Values.{value_at};
ghost use Rattle.index_transform.specs.Walks.{IsCell, IsNonEmpty};
ghost use Rattle.chunk_grid.specs.Grid.{IsGrid, AreFromZero, IsInShape, chunk_index, numbers};
ghost use Rattle.chunk_grid.specs.Rows.{are_ones, is_of_heads, is_of_rows, is_split, point, heads_of, row_of, all_kept, IsSplitView};
ghost use Rattle.chunk_grid.specs.Runs.{run_pieces};
ghost use Rattle.chunk_grid.specs.Slots.{chunk_counts, located, located_kept};

use crate::grid::Grid;
use crate::piece::RunPiece;
use crate::slots::{Located, pieces_of_products};
use cells::{LARGEST_RANK, List, divided};
use index_intervals::Interval;
use index_transform::{OutMap, Transform, Walk, size_of};
use std::alloc::{AllocError, Global};

fn are_ones(sizes: &[u64]) -> bool
    ensures { result ≡ are_ones sizes.now }
{
    sizes.iter().all(|size| *size == 1)
}

// Whether an output goes with the first `k` dimensions alone.
fn is_of_heads(k: usize, map: &OutMap) -> bool
    ensures { result ≡ is_of_heads k map.now }
{
    match map {
        OutMap::Constant { .. } => true,
        OutMap::Strided { dim, .. } => (*dim as usize) < k,
        OutMap::Indexed { sizes, .. } => {
            let sizes = sizes.items();
            are_ones(&sizes[k.min(sizes.len())..])
        }
    }
}

// Whether an output goes with the other dimensions alone.
fn is_of_rows(k: usize, map: &OutMap) -> bool
    ensures { result ≡ is_of_rows k map.now }
{
    match map {
        OutMap::Constant { .. } => true,
        OutMap::Strided { dim, .. } => k <= *dim as usize,
        OutMap::Indexed { sizes, .. } => {
            let sizes = sizes.items();
            are_ones(&sizes[..k.min(sizes.len())])
        }
    }
}

// Whether each output is of one of the two kinds.
fn is_split(k: usize, maps: &[OutMap]) -> bool
    ensures { result ≡ is_split k maps.now }
{
    maps.iter()
        .all(|map| is_of_heads(k, map) || is_of_rows(k, map))
}

fn point(dim: &Interval) -> Interval
    requires { IsTrue (is_finite dim.now) }
    ensures { result ≡ point dim.now }
{
    Interval { hi: dim.lo, ..*dim }
}

// The first dimensions, with one index along each of the others.
fn heads_of(alloc: Global, k: usize, dims: &[Interval]) -> Result<Vec<Interval>, AllocError>
    requires within { k ≤ length dims.now }
    requires finite { IsTrue (list_all is_finite dims.now) }
    ensures { IfOk result (λ heads. heads.items ≡ heads_of k dims.now) }
{
    let mut heads = Vec::from_slice(alloc, &dims[..k])?;
    for d in k..dims.len() {
        heads.push(point(&dims[d]))?;
    }
    Ok(heads)
}

// One index along each of the first dimensions, with the others.
fn row_of(alloc: Global, k: usize, dims: &[Interval]) -> Result<Vec<Interval>, AllocError>
    requires within { k ≤ length dims.now }
    requires finite { IsTrue (list_all is_finite dims.now) }
    ensures { IfOk result (λ row. row.items ≡ row_of k dims.now) }
{
    let mut row = Vec::new(alloc);
    for d in 0..k {
        row.push(point(&dims[d]))?;
    }
    row.extend_from_slice(&dims[k..])?;
    Ok(row)
}

// The number of an output whose flag is wanted, and 0 for the others.
fn kept_at(want: bool, flags: &[bool], target: &[i64], output: usize) -> u64
    requires same { length target.now ≡ length flags.now }
    requires within { output < length flags.now }
    requires from_zero { AreFromZero target.now }
    ensures { result ≡ unsigned_abs (slice_index_or (all_kept want flags.now target.now) output (pos 0)) }
{
    if flags[output] == want {
        target[output] as u64
    } else {
        0
    }
}

// Where a cell lies by the outputs whose flag is wanted. `last` has the chunk of the cell before, and then of this one.
fn located(
    counts: &[u64],
    chunk: &[u64],
    want: bool,
    flags: &[bool],
    target: &[i64],
    last: &mut [u64],
) -> Located
    requires chunk { length chunk.now ≡ length counts.now }
    requires flags { length flags.now ≡ length counts.now }
    requires target { length target.now ≡ length counts.now }
    requires room { length counts.now ≤ length last.old }
    requires positive { All (λ size. 0 < size) chunk.now }
    requires from_zero { AreFromZero target.now }
    requires inside { IsInside counts.now (chunk_index chunk.now (numbers (all_kept want flags.now target.now))) }
    requires few { cell_count counts.now ≤ 4194304 }
    requires small { cell_count chunk.now ≤ 2 ^ 24 }
    ensures { result ≡ located counts.now chunk.now (numbers (all_kept want flags.now target.now)) }
{
    let mut number = 0;
    let mut place = 0;
    for j in 0..counts.len() {
        let x = kept_at(want, flags, target, j);
        let (at, rest) = divided(x, chunk[j], last[j]);
        last[j] = at;
        number = number * counts[j] + at;
        place = place * chunk[j] + rest;
    }
    Located {
        number: number as u32,
        place: place as u32,
    }
}

// Where each cell of some of the view's indices lies, by the outputs whose flag is wanted.
fn locate_all(
    alloc: Global,
    t: &Transform,
    grid: &Grid,
    counts: &[u64],
    want: bool,
    flags: &[bool],
    dims: &[Interval],
) -> Result<Vec<Located>, AllocError>
    requires counts { counts.now ≡ chunk_counts grid.now.shape grid.now.chunk }
    requires few { cell_count counts.now ≤ 4194304 }
    requires flags { length flags.now ≡ length t.now.maps }
    requires finite { IsTrue (list_all is_finite t.now.domain.dims) }
    requires bounded { IsTrue (list_all is_finite dims.now) }
    requires rank { length dims.now ≡ length t.now.domain.dims }
    requires cells { All (λ cell. IsCell t.now.domain.dims cell
        × IsInShape grid.now.shape (value_at t.now cell)) (cells_of dims.now) }
    ensures { IfOk result (λ all. all.items ≡ map (located_kept want t.now counts.now grid.now.chunk flags.now)
        (cells_of dims.now)) }
{
    let chunk = grid.chunk();
    let mut all = Vec::new(alloc);
    let mut cell = Vec::from_elem(alloc, 0, dims.len())?;
    let mut target = Vec::from_elem(alloc, 0, t.maps().len())?;
    let mut walk = Walk::over(alloc, dims)?;
    let mut last = [0; LARGEST_RANK];
    'cells: while walk.advance(&mut cell) {
        t.value_into(&cell, &mut target);
        all.push(located(counts, chunk, want, flags, &target, &mut last))?;
    }
    Ok(all)
}

// Whether each output goes with the other dimensions.
fn row_flags(alloc: Global, k: usize, maps: &[OutMap]) -> Result<Vec<bool>, AllocError>
    ensures { IfOk result (λ flags. flags.items ≡ map (is_of_rows k) maps.now) }
{
    maps.iter().map(|map| is_of_rows(k, map)).collect(alloc)
}

/// How many chunks there are along each dimension.
pub(crate) fn chunk_counts(alloc: Global, grid: &Grid) -> Result<Vec<u64>, AllocError>
    ensures value { IfOk result (λ counts. counts.items ≡ chunk_counts grid.now.shape grid.now.chunk) }
    ensures well_formed { OnOk result (IsGrid grid.now) }
{
    let shape = grid.shape();
    let chunk = grid.chunk();
    let mut counts = Vec::new(alloc);
    for d in 0..shape.len() {
        counts.push(shape[d].div_ceil(chunk[d]))?;
    }
    Ok(counts)
}

// Where it is best to part the dimensions: as few heads and cells of a row as can be.
fn best_split(dims: &[Interval], maps: &[OutMap]) -> usize
    ensures within { result ≤ length dims.now }
    ensures split { IsTrue (is_split result maps.now) }
{
    let mut best = 0;
    let mut least = u64::MAX;
    for k in 0..dims.len() {
        let cost = count_of(&dims[..k]).saturating_add(count_of(&dims[k..]));
        if cost < least && is_split(k, maps) {
            best = k;
            least = cost;
        }
    }
    best
}

// The product of the sizes, as far as it fits.
fn count_of(dims: &[Interval]) -> u64 {
    dims.iter()
        .fold(1u64, |count, dim| count.saturating_mul(size_of(dim)))
}

// Where the heads lie, by the outputs that go with the first `k` dimensions.
fn heads_located(
    alloc: Global,
    t: &Transform,
    grid: &Grid,
    counts: &[u64],
    k: usize,
    flags: &[bool],
) -> Result<Vec<Located>, AllocError>
    requires counts { counts.now ≡ chunk_counts grid.now.shape grid.now.chunk }
    requires few { cell_count counts.now ≤ 4194304 }
    requires within { k ≤ length t.now.domain.dims }
    requires flags { length flags.now ≡ length t.now.maps }
    requires finite { IsTrue (list_all is_finite t.now.domain.dims) }
    requires filled { IsNonEmpty t.now.domain.dims }
    requires inside { All (λ cell. IsInShape grid.now.shape (value_at t.now cell)) (cells_of t.now.domain.dims) }
    ensures { IfOk result (λ heads. heads.items
        ≡ map (located_kept false t.now counts.now grid.now.chunk flags.now)
        (cells_of (heads_of k t.now.domain.dims))) }
{
    let dims = heads_of(alloc, k, t.domain().dims.items())?;
    locate_all(alloc, t, grid, counts, false, flags, &dims)
}

// Where the cells of a row lie, by the other outputs.
fn row_located(
    alloc: Global,
    t: &Transform,
    grid: &Grid,
    counts: &[u64],
    k: usize,
    flags: &[bool],
) -> Result<Vec<Located>, AllocError>
    requires counts { counts.now ≡ chunk_counts grid.now.shape grid.now.chunk }
    requires few { cell_count counts.now ≤ 4194304 }
    requires within { k ≤ length t.now.domain.dims }
    requires flags { length flags.now ≡ length t.now.maps }
    requires finite { IsTrue (list_all is_finite t.now.domain.dims) }
    requires filled { IsNonEmpty t.now.domain.dims }
    requires inside { All (λ cell. IsInShape grid.now.shape (value_at t.now cell)) (cells_of t.now.domain.dims) }
    ensures { IfOk result (λ row. row.items ≡ map (located_kept true t.now counts.now grid.now.chunk flags.now)
        (cells_of (row_of k t.now.domain.dims))) }
{
    let dims = row_of(alloc, k, t.domain().dims.items())?;
    locate_all(alloc, t, grid, counts, true, flags, &dims)
}

// The pieces of the products of heads and a row, where the heads are known.
fn cut_heads(
    alloc: Global,
    t: &Transform,
    grid: &Grid,
    counts: &[u64],
    k: usize,
    flags: &[bool],
    heads: &[Located],
) -> Result<List<RunPiece>, AllocError>
    requires grid { IsGrid grid.now }
    requires counts { counts.now ≡ chunk_counts grid.now.shape grid.now.chunk }
    requires few { cell_count counts.now ≤ 4194304 }
    requires split { IsSplitView k t.now flags.now }
    requires finite { IsTrue (list_all is_finite t.now.domain.dims) }
    requires filled { IsNonEmpty t.now.domain.dims }
    requires cells { length (cells_of t.now.domain.dims) ≤ 4194304 }
    requires inside { All (λ cell. IsInShape grid.now.shape (value_at t.now cell)) (cells_of t.now.domain.dims) }
    requires heads { heads.now ≡ map (located_kept false t.now counts.now grid.now.chunk flags.now)
        (cells_of (heads_of k t.now.domain.dims)) }
    ensures { IfOk result (λ pieces. pieces ≡ run_pieces grid.now.chunk (map (λ cell.
        numbers (value_at t.now cell)) (cells_of t.now.domain.dims))) }
{
    let row = row_located(alloc, t, grid, counts, k, flags)?;
    pieces_of_products(alloc, counts, heads, &row)
}

// The same from the flags on.
fn cut_split(
    alloc: Global,
    t: &Transform,
    grid: &Grid,
    counts: &[u64],
    k: usize,
    flags: &[bool],
) -> Result<List<RunPiece>, AllocError>
    requires grid { IsGrid grid.now }
    requires counts { counts.now ≡ chunk_counts grid.now.shape grid.now.chunk }
    requires few { cell_count counts.now ≤ 4194304 }
    requires split { IsSplitView k t.now flags.now }
    requires finite { IsTrue (list_all is_finite t.now.domain.dims) }
    requires filled { IsNonEmpty t.now.domain.dims }
    requires cells { length (cells_of t.now.domain.dims) ≤ 4194304 }
    requires inside { All (λ cell. IsInShape grid.now.shape (value_at t.now cell)) (cells_of t.now.domain.dims) }
    ensures { IfOk result (λ pieces. pieces ≡ run_pieces grid.now.chunk (map (λ cell.
        numbers (value_at t.now cell)) (cells_of t.now.domain.dims))) }
{
    let heads = heads_located(alloc, t, grid, counts, k, flags)?;
    cut_heads(alloc, t, grid, counts, k, flags, &heads)
}

/// The pieces of a view that has cells, of an array with few chunks, as the product of some dimensions and the others.
pub(crate) fn cut_rows(
    alloc: Global,
    t: &Transform,
    grid: &Grid,
    counts: &[u64],
) -> Result<List<RunPiece>, AllocError>
    requires grid { IsGrid grid.now }
    requires counts { counts.now ≡ chunk_counts grid.now.shape grid.now.chunk }
    requires few { cell_count counts.now ≤ 4194304 }
    requires finite { IsTrue (list_all is_finite t.now.domain.dims) }
    requires some { cells_of t.now.domain.dims ≢ [] }
    requires cells { length (cells_of t.now.domain.dims) ≤ 4194304 }
    requires inside { All (λ cell. IsInShape grid.now.shape (value_at t.now cell)) (cells_of t.now.domain.dims) }
    ensures { IfOk result (λ pieces. pieces ≡ run_pieces grid.now.chunk (map (λ cell.
        numbers (value_at t.now cell)) (cells_of t.now.domain.dims))) }
{
    let k = best_split(t.domain().dims.items(), t.maps());
    let flags = row_flags(alloc, k, t.maps())?;
    cut_split(alloc, t, grid, counts, k, &flags)
}
