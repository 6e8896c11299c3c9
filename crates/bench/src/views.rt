ghost use Rattle.std.specs.Prelude.{IsTrue};
ghost use Rattle.std.specs.List.{All};
ghost use Rattle.index_transform.specs.Cells.{cells_of};
ghost use Rattle.index_transform.specs.Values.{value_at};
ghost use Rattle.chunk_grid.specs.Grid.{IsInShape};

use cells::{Index, List, MOST_CELLS, Name, Sizes};
use chunk_grid::{Grid, RunPiece, is_grid, runs};
use index_intervals::Interval;
use index_transform::{Domain, OutMap, Transform};
use std::alloc::{AllocError, Global};

// A domain of these sizes, from 0 on.
fn domain(alloc: Global, sizes: &[i64]) -> Result<Domain, AllocError> {
    let mut dims = Vec::new(alloc);
    let mut labels = Vec::new(alloc);
    for size in sizes {
        if let Ok(dim) = Interval::new(0, size.wrapping_sub(1), false, false) {
            dims.push(dim)?;
        }
        labels.push(Name::wrap(String::new(alloc)))?;
    }
    Ok(Domain {
        dims: List::wrap(dims),
        labels: List::wrap(labels),
    })
}

fn strided(offset: i64, stride: i64, dim: u32) -> OutMap {
    OutMap::Strided {
        offset,
        stride,
        dim,
    }
}

fn indexed(alloc: Global, sizes: &[u64], entries: Vec<i64>) -> Result<OutMap, AllocError> {
    Ok(OutMap::Indexed {
        offset: 0,
        stride: 1,
        sizes: Sizes::wrap(Vec::from_slice(alloc, sizes)?),
        entries: Index::wrap(entries),
    })
}

// The entries `step * k mod 1000` of a list of 1000.
fn steps(alloc: Global, step: i64) -> Result<Vec<i64>, AllocError> {
    let mut entries = Vec::new(alloc);
    for k in 0..1000i64 {
        entries.push(k.wrapping_mul(step) % 1000)?;
    }
    Ok(entries)
}

// The rows or the columns of 1000 by 1000 points, row after row.
fn row_order(alloc: Global, is_row: bool) -> Result<Vec<i64>, AllocError> {
    let mut entries = Vec::new(alloc);
    for k in 0..1_000_000i64 {
        entries.push(if is_row { k / 1000 } else { k % 1000 })?;
    }
    Ok(entries)
}

// So many points along a dimension of this size, by a linear congruential generator.
fn random(alloc: Global, seed: u64, size: u64) -> Result<Vec<i64>, AllocError> {
    let mut entries = Vec::new(alloc);
    let mut state = seed;
    for _ in 0..1_000_000 {
        state = state
            .wrapping_mul(6_364_136_223_846_793_005)
            .wrapping_add(1_442_695_040_888_963_407);
        entries.push(below(state >> 33, size))?;
    }
    Ok(entries)
}

fn below(x: u64, size: u64) -> i64 {
    i64::try_from(x.checked_rem(size).unwrap_or(0)).unwrap_or(0)
}

// The sizes of the domain of a view by its name.
fn sizes(view: &str) -> &'static [i64] {
    if view == "vindex" || view == "random" {
        &[1_000_000]
    } else {
        &[1000, 1000]
    }
}

// The first output of a view by its name.
fn first(alloc: Global, view: &str) -> Result<OutMap, AllocError> {
    if view == "strided" {
        return Ok(strided(1, 2, 0));
    }
    if view == "oindex" {
        return indexed(alloc, &[1000, 1], steps(alloc, 3)?);
    }
    if view == "vindex" {
        return indexed(alloc, &[1_000_000], row_order(alloc, true)?);
    }
    if view == "random" {
        return indexed(alloc, &[1_000_000], random(alloc, 1, 2000)?);
    }
    Ok(strided(0, 1, 0))
}

// And the second.
fn second(alloc: Global, view: &str) -> Result<OutMap, AllocError> {
    if view == "strided" {
        return Ok(strided(2999, -3, 1));
    }
    if view == "indexed" || view == "oindex" {
        return indexed(alloc, &[1, 1000], steps(alloc, 7)?);
    }
    if view == "vindex" {
        return indexed(alloc, &[1_000_000], row_order(alloc, false)?);
    }
    if view == "random" {
        return indexed(alloc, &[1_000_000], random(alloc, 2, 3000)?);
    }
    Ok(strided(0, 1, 1))
}

// The maps of a view by its name.
fn maps(alloc: Global, view: &str) -> Result<Vec<OutMap>, AllocError> {
    let mut maps = Vec::new(alloc);
    maps.push(first(alloc, view)?)?;
    maps.push(second(alloc, view)?)?;
    Ok(maps)
}

fn counted(pieces: &List<RunPiece>) -> (usize, usize) {
    let mut runs = 0usize;
    for piece in pieces.items() {
        runs = runs.wrapping_add(piece.runs.items().len());
    }
    (pieces.items().len(), runs)
}

// Whether each value of the view lies inside the array.
fn fits(t: &Transform, grid: &Grid) -> bool
    ensures { IsTrue result → All (λ cell. IsInShape grid.now.shape (value_at t.now cell))
        (cells_of t.now.domain.dims) }
{
    if !t.is_finite() || t.maps().len() != grid.shape().len() {
        return false;
    }
    match t.first_leaving(grid.shape()) {
        Some(_) => false,
        None => true,
    }
}

// The numbers of chunks and of runs of a view, after it was cut so many times; none where it can't be.
fn cut_times(
    alloc: Global,
    t: &Transform,
    grid: &Grid,
    times: u32,
) -> Result<Option<(usize, usize)>, AllocError> {
    let Ok(count) = t.count() else {
        return Ok(None);
    };
    if count > MOST_CELLS || !t.is_finite() || !fits(t, grid) {
        return Ok(None);
    }
    let mut counts = (0, 0);
    for _ in 0..times {
        counts = counted(&runs(alloc, t, grid)?);
    }
    Ok(Some(counts))
}

fn grid(alloc: Global, shape: &[u64], chunk: &[u64]) -> Result<Option<Grid>, AllocError> {
    if !is_grid(shape, chunk) {
        return Ok(None);
    }
    let shape = Sizes::wrap(Vec::from_slice(alloc, shape)?);
    let chunk = Sizes::wrap(Vec::from_slice(alloc, chunk)?);
    Ok(Some(Grid::new(shape, chunk)))
}

/// The same of a view by its name, over an array of 2000 by 3000 cells in chunks of 100 by 100.
pub(crate) fn bench(
    alloc: Global,
    view: &str,
    times: u32,
) -> Result<Option<(usize, usize)>, AllocError> {
    let Ok(t) = Transform::new(domain(alloc, sizes(view))?, maps(alloc, view)?) else {
        return Ok(None);
    };
    let Some(grid) = grid(alloc, &[2000, 3000], &[100, 100])? else {
        return Ok(None);
    };
    cut_times(alloc, &t, &grid, times)
}
