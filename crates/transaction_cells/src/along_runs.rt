// The cells of a view of one array, by the runs in which they lie.
ghost use Rattle.std.specs.Prelude.{◌≡◌, ◌≤◌, ◌∷◌, length, map, replicate, IsTrue, IfOk, IfSome, OnOk};
ghost use Rattle.std.specs.List.{All, list_all};
ghost use Rattle.cells.specs.Places.{cell_count};
ghost use Rattle.chunk_grid.specs.Grid.{IsInShape};
ghost use Rattle.chunk_grid.specs.Runs.{run_pieces};
ghost use Rattle.index_transform.specs.Cells.{cells_of, is_finite};
ghost use Rattle.index_transform.specs.Values.{value_at};
ghost use Rattle.stack_driver.specs.Conditions.{IsView};
ghost use Rattle.stack_driver.specs.Views.{look_of};
ghost use Rattle.stack_targets.specs.Landings.{leaves_of};
ghost use Rattle.transaction_cells.specs.Along.{IsWithin, numbered, targets_along};
ghost use Rattle.transaction_cells.specs.Lanes.{lane_of};
ghost use Rattle.transaction_cells.specs.Operations.{HasSites};
ghost use Rattle.transaction_cells.specs.Pieces.{AreCells};
ghost use Rattle.transaction_cells.specs.Sites.{sites_of};

use crate::cell_leaves::CellLeaves;
use crate::lanes::lanes_of;
use crate::view_cells::{Piece, ViewCells};
use cells::{List, MOST_CHUNK_CELLS, Sizes, count_cells};
use chunk_grid::{Grid, RunPiece, runs};
use index_transform::Transform;
use stack_driver::{ArrayRef, View, array_of, transform_of};
use std::alloc::{AllocError, Global};

/// The array of a view that shows no other, where none of the view's cells leaves the array's shape.
pub(crate) fn array_within(v: &View) -> Option<&ArrayRef>
    requires view { IsView v.now }
    requires finite { IsTrue (list_all is_finite (look_of v.now).dims) }
    ensures { IfSome result (λ array. IsWithin v.now array.now) }
{
    let array = array_of(v)?;
    match transform_of(v).first_leaving(array.shape.items()) {
        None => Some(array),
        Some(_) => None,
    }
}

/// Where the cells of such a view lie. The work goes with the chunks and the runs; a cell takes no memory of its own.
pub(crate) fn along_runs(alloc: Global, v: &View, array: &ArrayRef) -> Result<ViewCells, AllocError>
    requires view { IsView v.now }
    requires finite { IsTrue (list_all is_finite (look_of v.now).dims) }
    requires few { length (cells_of (look_of v.now).dims) ≤ 4194304 }
    requires within { IsWithin v.now array.now }
    ensures cells { IfOk result (λ cells. AreCells (sites_of v.now) cells) }
    ensures sites { OnOk result (HasSites v.now) }
    ensures lanes { IfOk result (λ cells. cells.lanes ≡ map lane_of (leaves_of v.now)) }
{
    let transform = transform_of(v);
    let lanes = lanes_of(alloc, v)?;
    let leaves = first_leaves(transform)?;
    Ok(ViewCells {
        leaves,
        lanes,
        pieces: pieces_along(alloc, array, transform)?,
    })
}

// The number of the first leaf for each cell.
fn first_leaves(transform: &Transform) -> Result<CellLeaves, AllocError>
    ensures { IfOk result (λ leaves. leaves ≡ replicate (length (cells_of transform.now.domain.dims)) 0) }
{
    let Ok(count) = transform.count() else {
        return Err(AllocError);
    };
    Ok(CellLeaves::first(count as usize))
}

fn pieces_along(
    alloc: Global,
    array: &ArrayRef,
    transform: &Transform,
) -> Result<List<Piece>, AllocError>
    requires finite { IsTrue (list_all is_finite transform.now.domain.dims) }
    requires few { length (cells_of transform.now.domain.dims) ≤ 4194304 }
    requires inside { All (λ cell. IsInShape array.now.shape (value_at transform.now cell))
        (cells_of transform.now.domain.dims) }
    ensures { IfOk result (λ pieces. pieces ≡ map (numbered array.now.number (cell_count array.now.chunk))
        (run_pieces array.now.chunk (targets_along transform.now))) }
{
    let grid = grid_of(alloc, array)?;
    let pieces = runs(alloc, transform, &grid)?;
    all_numbered(alloc, array.number, chunk_cells(array), pieces)
}

fn grid_of(alloc: Global, array: &ArrayRef) -> Result<Grid, AllocError>
    ensures { IfOk result (λ grid. grid ≡ record { shape = array.now.shape; chunk = array.now.chunk }) }
{
    let shape = Vec::from_slice(alloc, array.shape.items())?;
    let chunk = Vec::from_slice(alloc, array.chunk.items())?;
    Ok(Grid::new(Sizes::wrap(shape), Sizes::wrap(chunk)))
}

// How many cells a chunk of an array has.
fn chunk_cells(array: &ArrayRef) -> u64
    ensures { result ≡ cell_count array.now.chunk }
{
    count_cells(array.chunk.items(), MOST_CHUNK_CELLS).unwrap_or(0)
}

// The pieces of an array's chunks.
fn all_numbered(
    alloc: Global,
    array: u64,
    size: u64,
    pieces: List<RunPiece>,
) -> Result<List<Piece>, AllocError>
    ensures { IfOk result (λ all. all ≡ map (numbered array size) pieces) }
{
    let pieces = pieces.into_inner();
    let mut all = Vec::with_capacity(alloc, pieces.len())?;
    for piece in pieces {
        all.push(numbered(alloc, array, size, piece)?)?;
    }
    Ok(List::wrap(all))
}

fn numbered(alloc: Global, array: u64, size: u64, piece: RunPiece) -> Result<Piece, AllocError>
    ensures { IfOk result (λ p. p ≡ numbered array size piece) }
{
    let id = id_of(alloc, array, piece.chunk.items())?;
    Ok(Piece {
        id: Sizes::wrap(id),
        size,
        runs: piece.runs,
    })
}

fn id_of(alloc: Global, array: u64, chunk: &[u64]) -> Result<Vec<u64>, AllocError>
    ensures { IfOk result (λ id. id.items ≡ array ∷ chunk.now) }
{
    let mut id = Vec::with_capacity(alloc, chunk.len() + 1)?;
    id.push(array)?;
    id.extend_from_slice(chunk)?;
    Ok(id)
}
