// The runs of a view without index arrays, box by box.
ghost use Rattle.std.specs.Prelude.{◌≡◌, ◌≢◌, ◌≤◌, ◌<◌, ◌+◌, ◌*◌, ◌==◌, ℕ, ℤ, pos, [], List, IsTrue, IfOk, length, map, filter, not, unsigned_abs, ◌^◌, ◌*ℤ◌, ◌+ℤ◌, ◌-ℤ◌, ◌≤ℤ◌, slice_index_or, FitsSigned};
ghost use mir.Syntax.{w64};
ghost use Rattle.std.specs.List.{All, AllByRecursion, list_all};
ghost use Rattle.std.specs.Str.{bytes_eq};
ghost use Rattle.cells.specs.Places.{cell_count};
ghost use Rattle.index_transform.specs.Cells.{is_finite, cells_of};
ghost use Rattle.index_transform.specs.Maps.{size_of, is_map};
ghost use Rattle.index_transform.specs.Values.{map_value, value_at};
ghost use Rattle.index_transform.specs.Walks.{lows};
ghost use Rattle.chunk_grid.specs.Grid.{IsGrid, IsInShape, chunk_index, numbers};
ghost use Rattle.chunk_grid.specs.Boxes.{is_regular, IsBoxIn, key_along, cell_place, view_steps, added_along, added_by, chunk_steps, loops_of, runs_more_than_once, IsSmallStep, pair_at_cell, IsOfBox, IsCutBox, piece_of_box};
ghost use Rattle.chunk_grid.specs.Runs.{runs_of_pairs, run_pieces};

use crate::boxes::{Boxed, boxes_of};
use crate::grid::Grid;
use crate::piece::RunPiece;
use cells::{List, Run};
use index_intervals::Interval;
use index_transform::{OutMap, Transform, size_of};
use std::alloc::{AllocError, Global};
use strided_runs::{Loop, runs_of_loops};

// How far the view's place goes with an index along each dimension.
fn view_steps(alloc: Global, dims: &[Interval]) -> Result<Vec<u64>, AllocError>
    requires few { cell_count (map size_of dims.now) ≤ 4194304 }
    requires some { 0 < cell_count (map size_of dims.now) }
    ensures { IfOk result (λ steps. steps.items ≡ view_steps dims.now) }
{
    let mut steps = vec![in alloc; 0; dims.len()]?;
    let mut width = 1;
    let mut d = dims.len();
    while d > 0 {
        d -= 1;
        steps[d] = width;
        width *= size_of(&dims[d]);
    }
    Ok(steps)
}

fn step_at(steps: &[i128], dim: usize) -> i128
    requires { dim < length steps.now }
    ensures { result ≡ slice_index_or steps.now dim (pos 0) }
{
    steps[dim]
}

fn sum(x: i128, by: i128) -> i128
    requires small { unsigned_abs x ≤ 32 * 2 ^ 87 }
    requires step { unsigned_abs by ≤ 2 ^ 87 }
    ensures { result ≡ x +ℤ by }
{
    x + by
}

// The steps with so much more along one dimension, where there is such a one.
#[tactic(auto, using(crate::proofs::StepLaws::added_past, crate::proofs::StepLaws::all_small, crate::proofs::StepLaws::all_added))]
fn added_along(mut steps: Vec<i128>, dim: usize, by: i128) -> Vec<i128>
    requires small { AllByRecursion (λ x. unsigned_abs x ≤ 32 * 2 ^ 87) steps.items }
    requires step { unsigned_abs by ≤ 2 ^ 87 }
    ensures value { result.items ≡ added_along dim by steps.items }
    ensures small { (n : ℕ) → AllByRecursion (λ x. unsigned_abs x ≤ n) steps.items
        → AllByRecursion (λ x. unsigned_abs x ≤ n + 2 ^ 87) result.items }
{
    if dim < steps.len() {
        steps[dim] = sum(step_at(&steps, dim), by);
    }
    steps
}

fn product(stride: i64, width: u64) -> i128
    requires { width ≤ 2 ^ 24 }
    ensures value { result ≡ stride *ℤ pos width }
    ensures bound { unsigned_abs result ≤ 2 ^ 87 }
{
    i128::from(stride) * i128::from(width)
}

// The steps with how far the chunk's place goes by one output.
#[tactic(auto, using(crate::proofs::StepLaws::all_wider))]
fn added_by(map: &OutMap, width: u64, steps: Vec<i128>) -> Vec<i128>
    requires small { AllByRecursion (λ x. unsigned_abs x ≤ 32 * 2 ^ 87) steps.items }
    requires width { width ≤ 2 ^ 24 }
    ensures value { result.items ≡ added_by map.now width steps.items }
    ensures small { (n : ℕ) → AllByRecursion (λ x. unsigned_abs x ≤ n) steps.items
        → AllByRecursion (λ x. unsigned_abs x ≤ n + 2 ^ 87) result.items }
{
    match map {
        OutMap::Strided { stride, dim, .. } => {
            added_along(steps, *dim as usize, product(*stride, width))
        }
        _ => steps,
    }
}

// How far the chunk's place goes with an index along each of so many dimensions, inside one chunk.
fn chunk_steps(
    alloc: Global,
    rank: usize,
    maps: &[OutMap],
    chunk: &[u64],
) -> Result<Vec<i128>, AllocError>
    requires same { length maps.now ≡ length chunk.now }
    requires few { length maps.now ≤ 32 }
    requires positive { All (λ size. 0 < size) chunk.now }
    requires small { cell_count chunk.now ≤ 2 ^ 24 }
    ensures { IfOk result (λ steps. steps.items ≡ chunk_steps rank maps.now chunk.now) }
{
    let mut steps = vec![in alloc; 0; rank]?;
    let mut width = 1;
    let mut j = maps.len();
    while j > 0 {
        j -= 1;
        steps = added_by(&maps[j], width, steps);
        width *= chunk[j];
    }
    Ok(steps)
}

// The step along a dimension as a loop has it.
fn small_step(steps: &[i128], dim: usize) -> i64
    requires within { dim < length steps.now }
    requires small { unsigned_abs (slice_index_or steps.now dim (pos 0)) < 2 ^ 32 }
    ensures { result ≡ slice_index_or steps.now dim (pos 0) }
{
    step_at(steps, dim) as i64
}

// The loops over a box, without those that run once.
fn loops_of(
    alloc: Global,
    dims: &[Interval],
    views: &[u64],
    chunks: &[i128],
) -> Result<Vec<Loop>, AllocError>
    requires views { length views.now ≡ length dims.now }
    requires chunks { length chunks.now ≡ length dims.now }
    requires small { AllByRecursion IsSmallStep (loops_of dims.now views.now chunks.now) }
    ensures { IfOk result (λ loops. loops.items ≡ filter runs_more_than_once (loops_of dims.now views.now chunks.now)) }
{
    let mut loops = Vec::with_capacity(alloc, dims.len())?;
    for d in 0..dims.len() {
        let times = size_of(&dims[d]);
        if times != 1 {
            loops.push(Loop {
                times,
                view_step: views[d],
                chunk_step: small_step(chunks, d),
            })?;
        }
    }
    Ok(loops)
}

// How far an interval begins behind the lower bound of a dimension.
fn offset(dim: &Interval, part: &Interval) -> u64
    requires { dim.now.lo ≤ℤ part.now.lo }
    ensures { result ≡ unsigned_abs (part.now.lo -ℤ dim.now.lo) }
{
    (part.lo - dim.lo) as u64
}

// The place of a box's first cell in the view.
fn first_place(dims: &[Interval], boxed: &[Interval], views: &[u64]) -> u32
    requires views { views.now ≡ view_steps dims.now }
    requires inside { IsBoxIn dims.now boxed.now }
    requires few { cell_count (map size_of dims.now) ≤ 4194304 }
    ensures { result ≡ cell_place dims.now (lows boxed.now) }
{
    let mut place = 0;
    for d in 0..dims.len() {
        place += views[d] * offset(&dims[d], &boxed[d]);
    }
    place as u32
}

fn first_cell(alloc: Global, boxed: &[Interval]) -> Result<Vec<i64>, AllocError>
    ensures { IfOk result (λ cell. cell.items ≡ lows boxed.now) }
{
    boxed.iter().map(|dim| dim.lo).collect(alloc)
}

// The runs of the cells of a box that lies in one chunk.
fn runs_of_box(
    alloc: Global,
    t: &Transform,
    grid: &Grid,
    views: &[u64],
    chunks: &[i128],
    boxed: &[Interval],
) -> Result<List<Run>, AllocError>
    requires regular { IsTrue (list_all is_regular t.now.maps) }
    requires fit { IsTrue (list_all (is_map t.now.domain.dims) t.now.maps) }
    requires grid { IsGrid grid.now }
    requires few { cell_count (map size_of t.now.domain.dims) ≤ 4194304 }
    requires views { views.now ≡ view_steps t.now.domain.dims }
    requires chunks { chunks.now ≡ chunk_steps (length t.now.domain.dims) t.now.maps grid.now.chunk }
    requires inside { IsBoxIn t.now.domain.dims boxed.now }
    requires first { IsInShape grid.now.shape (map (map_value [] (lows boxed.now)) t.now.maps) }
    requires cells { AllByRecursion (IsOfBox t.now.maps grid.now.chunk
        (chunk_index grid.now.chunk (numbers (map (map_value [] (lows boxed.now)) t.now.maps))) boxed.now)
        (cells_of boxed.now) }
    ensures { IfOk result (λ runs. runs ≡ runs_of_pairs
        (map (pair_at_cell t.now.domain.dims t.now.maps grid.now.chunk) (cells_of boxed.now))) }
{
    let first = first_cell(alloc, boxed)?;
    let Ok(value) = t.at(alloc, &first) else {
        return Err(AllocError);
    };
    let view = first_place(t.domain().dims.items(), boxed, views);
    let chunk = grid.place_in(&value) as u32;
    let loops = loops_of(alloc, boxed, views, chunks)?;
    runs_of_loops(alloc, &loops, view, chunk)
}

// The pieces of boxes, in their order.
fn pieces_of_boxes(
    alloc: Global,
    t: &Transform,
    grid: &Grid,
    views: &[u64],
    chunks: &[i128],
    boxes: Vec<Boxed>,
) -> Result<List<RunPiece>, AllocError>
    requires regular { IsTrue (list_all is_regular t.now.maps) }
    requires fit { IsTrue (list_all (is_map t.now.domain.dims) t.now.maps) }
    requires grid { IsGrid grid.now }
    requires few { cell_count (map size_of t.now.domain.dims) ≤ 4194304 }
    requires views { views.now ≡ view_steps t.now.domain.dims }
    requires chunks { chunks.now ≡ chunk_steps (length t.now.domain.dims) t.now.maps grid.now.chunk }
    requires boxes { All (IsCutBox t.now.domain.dims t.now.maps grid.now.shape grid.now.chunk) boxes.items }
    ensures { IfOk result (λ pieces. pieces ≡ map
        (piece_of_box t.now.domain.dims t.now.maps grid.now.chunk) boxes.items) }
{
    let mut pieces = Vec::with_capacity(alloc, boxes.len())?;
    for boxed in boxes {
        let Boxed { chunk, dims } = boxed;
        let runs = runs_of_box(alloc, t, grid, views, chunks, dims.items())?;
        pieces.push(RunPiece { chunk, runs })?;
    }
    Ok(List::wrap(pieces))
}

/// The pieces of a view without index arrays that has cells, box by box.
pub(crate) fn cut_boxes(
    alloc: Global,
    t: &Transform,
    grid: &Grid,
) -> Result<List<RunPiece>, AllocError>
    requires regular { IsTrue (list_all is_regular t.now.maps) }
    requires finite { IsTrue (list_all is_finite t.now.domain.dims) }
    requires some { cells_of t.now.domain.dims ≢ [] }
    requires few { length (cells_of t.now.domain.dims) ≤ 4194304 }
    requires inside { All (λ cell. IsInShape grid.now.shape (value_at t.now cell)) (cells_of t.now.domain.dims) }
    ensures { IfOk result (λ pieces. pieces ≡ run_pieces grid.now.chunk (map (λ cell.
        numbers (value_at t.now cell)) (cells_of t.now.domain.dims))) }
{
    let dims = t.domain().dims.items();
    let boxes = boxes_of(alloc, t, grid)?;
    let views = view_steps(alloc, dims)?;
    let chunks = chunk_steps(alloc, dims.len(), t.maps(), grid.chunk())?;
    pieces_of_boxes(alloc, t, grid, &views, &chunks, boxes)
}
