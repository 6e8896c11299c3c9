ghost use Rattle.std.specs.Prelude.{◌≡◌, ◌≢◌, ◌≤◌, [], IsTrue, IfOk, OnOk, length, map};
ghost use Rattle.std.specs.List.{All, list_all};
ghost use Rattle.cells.specs.Places.{cell_count};
ghost use Rattle.index_transform.specs.Cells.{is_finite, cells_of};
ghost use Rattle.index_transform.specs.Values.{value_at};
ghost use Rattle.chunk_grid.specs.Grid.{IsInShape, numbers};
ghost use Rattle.chunk_grid.specs.Cuts.{AreCuts};
ghost use Rattle.chunk_grid.specs.Pieces.{pieces_by_chunk};
ghost use Rattle.chunk_grid.specs.Runs.{run_pieces, unrolled};
ghost use Rattle.chunk_grid.specs.Boxes.{is_regular};
ghost use Rattle.chunk_grid.specs.Once.{IsCut};

use crate::boxing::cut_boxes;
use crate::cuts::{Cuts, add, new_cuts, pieces_of};
use crate::grid::Grid;
use crate::piece::RunPiece;
use crate::rows::{chunk_counts, cut_rows};
use cells::{Index, List, count_cells};
use index_transform::{OutMap, Transform, Walk};
use std::alloc::{AllocError, Global};

/// The chunks that a list of index vectors touches, in lexical order of their indices, each once. A run's pairs are the
/// places in the list and the places in the chunk, in C order, of the vectors that lie there. They come in rising order of
/// the list, and a run takes as many as follow by equal steps.
///
/// At most 2^22 vectors, each inside the array.
///
/// # Errors
///
/// `AllocError` where there is no memory.
pub fn runs_of(alloc: Global, targets: &[Index], grid: &Grid) -> Result<List<RunPiece>, AllocError>
    requires few { length targets.now ≤ 4194304 }
    requires inside { All (IsInShape grid.now.shape) targets.now }
    ensures pieces { IfOk result (λ pieces. pieces ≡ run_pieces grid.now.chunk (map numbers targets.now)) }
    ensures cells { IfOk result (λ pieces. map unrolled pieces
        ≡ pieces_by_chunk grid.now.chunk (map numbers targets.now)) }
    ensures cut { IfOk result (λ pieces. IsCut grid.now.chunk (map numbers targets.now) pieces) }
{
    let mut cuts = new_cuts(alloc);
    let mut chunk = Vec::from_elem(alloc, 0, grid.shape().len())?;
    for (view, target) in targets.iter().enumerate() {
        add(
            alloc,
            &mut cuts,
            grid,
            target.items(),
            &mut chunk,
            view as u32,
        )?;
    }
    pieces_of(alloc, cuts)
}

/// The same of a view: of the values of its transform at the cells of its finite domain, in C order.
///
/// Without an index array the work goes with the runs: a view is cut into one box for each chunk that it touches, and a
/// box takes a step for each run. With one it takes a step for each cell, and where the array has no more chunks than the
/// view has cells, no step looks for its chunk.
///
/// The view has at most 2^22 cells, and each value lies inside the array.
///
/// # Errors
///
/// `AllocError` where there is no memory.
pub fn runs(alloc: Global, t: &Transform, grid: &Grid) -> Result<List<RunPiece>, AllocError>
    requires finite { IsTrue (list_all is_finite t.now.domain.dims) }
    requires few { length (cells_of t.now.domain.dims) ≤ 4194304 }
    requires inside { All (λ cell. IsInShape grid.now.shape (value_at t.now cell)) (cells_of t.now.domain.dims) }
    ensures pieces { IfOk result (λ pieces. pieces ≡ run_pieces grid.now.chunk (map (λ cell.
        numbers (value_at t.now cell)) (cells_of t.now.domain.dims))) }
    ensures cells { IfOk result (λ pieces. map unrolled pieces ≡ pieces_by_chunk grid.now.chunk (map (λ cell.
        numbers (value_at t.now cell)) (cells_of t.now.domain.dims))) }
    ensures cut { IfOk result (λ pieces. IsCut grid.now.chunk (map (λ cell.
        numbers (value_at t.now cell)) (cells_of t.now.domain.dims)) pieces) }
{
    if !has_cells(t) {
        return cut_cells(alloc, t, grid);
    }
    if are_regular(t.maps()) {
        cut_boxes(alloc, t, grid)
    } else {
        cut_indexed(alloc, t, grid)
    }
}

// The pieces of a view with index arrays that has cells.
fn cut_indexed(alloc: Global, t: &Transform, grid: &Grid) -> Result<List<RunPiece>, AllocError>
    requires finite { IsTrue (list_all is_finite t.now.domain.dims) }
    requires some { cells_of t.now.domain.dims ≢ [] }
    requires few { length (cells_of t.now.domain.dims) ≤ 4194304 }
    requires inside { All (λ cell. IsInShape grid.now.shape (value_at t.now cell)) (cells_of t.now.domain.dims) }
    ensures { IfOk result (λ pieces. pieces ≡ run_pieces grid.now.chunk (map (λ cell.
        numbers (value_at t.now cell)) (cells_of t.now.domain.dims))) }
{
    let counts = chunk_counts(alloc, grid)?;
    if are_few(t, &counts) {
        cut_rows(alloc, t, grid, &counts)
    } else {
        cut_cells(alloc, t, grid)
    }
}

// Whether the array has no more chunks than the view has cells.
fn are_few(t: &Transform, counts: &[u64]) -> bool
    requires { length (cells_of t.now.domain.dims) ≤ 4194304 }
    ensures { IsTrue result → cell_count counts.now ≤ 4194304 }
{
    match t.count() {
        Ok(count) => has_at_most(counts, count),
        Err(_) => false,
    }
}

fn has_at_most(counts: &[u64], most: u64) -> bool
    ensures { IsTrue result → cell_count counts.now ≤ most }
{
    match count_cells(counts, most) {
        Some(_) => true,
        None => false,
    }
}

fn has_cells(t: &Transform) -> bool
    ensures { IsTrue result → cells_of t.now.domain.dims ≢ [] }
{
    match t.count() {
        Ok(count) => count > 0,
        Err(_) => false,
    }
}

// Whether no output has an index array.
fn are_regular(maps: &[OutMap]) -> bool
    ensures { result ≡ list_all is_regular maps.now }
{
    maps.iter().all(|map| match map {
        OutMap::Constant { .. } | OutMap::Strided { .. } => true,
        OutMap::Indexed { .. } => false,
    })
}

// The pieces of a view, cell by cell.
fn cut_cells(alloc: Global, t: &Transform, grid: &Grid) -> Result<List<RunPiece>, AllocError>
    requires finite { IsTrue (list_all is_finite t.now.domain.dims) }
    requires few { length (cells_of t.now.domain.dims) ≤ 4194304 }
    requires inside { All (λ cell. IsInShape grid.now.shape (value_at t.now cell)) (cells_of t.now.domain.dims) }
    ensures { IfOk result (λ pieces. pieces ≡ run_pieces grid.now.chunk (map (λ cell.
        numbers (value_at t.now cell)) (cells_of t.now.domain.dims))) }
{
    let mut cuts = new_cuts(alloc);
    put_cells(alloc, &mut cuts, t, grid)?;
    pieces_of(alloc, cuts)
}

// Cuts a view cell by cell.
fn put_cells(alloc: Global, cuts: &mut Cuts, t: &Transform, grid: &Grid) -> Result<(), AllocError>
    requires finite { IsTrue (list_all is_finite t.now.domain.dims) }
    requires few { length (cells_of t.now.domain.dims) ≤ 4194304 }
    requires inside { All (λ cell. IsInShape grid.now.shape (value_at t.now cell)) (cells_of t.now.domain.dims) }
    requires empty { AreCuts grid.now.chunk [] cuts.old }
    ensures { OnOk result (AreCuts grid.now.chunk (map (λ cell.
        numbers (value_at t.now cell)) (cells_of t.now.domain.dims)) cuts.new) }
{
    let mut chunk = Vec::from_elem(alloc, 0, grid.shape().len())?;
    let mut cell = Vec::from_elem(alloc, 0, t.domain().dims.items().len())?;
    let mut target = Vec::from_elem(alloc, 0, t.maps().len())?;
    let mut walk = Walk::new(alloc, t.domain())?;
    let mut view = 0;
    'cells: while walk.advance(&mut cell) {
        t.value_into(&cell, &mut target);
        add(alloc, cuts, grid, &target, &mut chunk, view)?;
        view += 1;
    }
    Ok(())
}
