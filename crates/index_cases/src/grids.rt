// Calls over a grid, each behind tests of what it asks.
ghost use Rattle.std.specs.Prelude.{◌≡◌, true};
ghost use Rattle.std.specs.List.{All};
ghost use Rattle.index_transform.specs.Shapes.{IsInShape};

use crate::transforms::first_leaving;
use case_lines::{Fault, items, member, numbers_of, sizes, told};
use cells::{Index, List, Sizes};
use chunk_grid::{Grid, RunPiece, is_grid, runs, runs_of};
use index_transform::Transform;
use serde_json::Value;
use std::alloc::Global;
use std::fmt::Debug;
use transform_json::read_transform;

pub(crate) fn answer(alloc: Global, call: &str, v: &Value) -> Result<String, Fault> {
    let grid = grid(alloc, v)?;
    over(alloc, call, &grid, v)
}

fn over(alloc: Global, call: &str, grid: &Grid, v: &Value) -> Result<String, Fault> {
    match call {
        "cell" => cell(alloc, grid, member(v, "cell")?),
        "runs" => cut(alloc, grid, member(v, "t")?),
        "runs_of" => cut_of(alloc, grid, member(v, "cells")?),
        _ => Err(Fault::Line),
    }
}

fn grid(alloc: Global, v: &Value) -> Result<Grid, Fault> {
    let shape = sizes(alloc, v, "shape")?;
    let chunk = sizes(alloc, v, "chunk")?;
    if !is_grid(&shape, &chunk) {
        return Err(Fault::Line);
    }
    Ok(Grid::new(Sizes::wrap(shape), Sizes::wrap(chunk)))
}

fn is_inside(shape: &[u64], index: &[i64]) -> bool
    ensures { result ≡ true → IsInShape shape.now index.now }
{
    if index.len() != shape.len() {
        return false;
    }
    for k in 0..shape.len() {
        if index[k] < 0 || index[k] as u64 >= shape[k] {
            return false;
        }
    }
    true
}

// The chunk of a cell, and the cell's place there.
fn cell(alloc: Global, grid: &Grid, v: &Value) -> Result<String, Fault> {
    let cell = numbers_of(alloc, v)?;
    told(alloc, &place(alloc, grid, &cell)?)
}

fn place(alloc: Global, grid: &Grid, cell: &[i64]) -> Result<(Vec<u64>, usize), Fault> {
    if !is_inside(grid.shape(), cell) {
        return Err(Fault::Line);
    }
    let mut chunk = Vec::from_elem(alloc, 0, grid.shape().len())?;
    grid.chunk_of(cell, &mut chunk);
    Ok((chunk, grid.place_in(cell)))
}

fn cut(alloc: Global, grid: &Grid, v: &Value) -> Result<String, Fault> {
    match read_transform(alloc, v) {
        Ok(t) => told_runs(alloc, grid, &t),
        Err(e) => told(alloc, &e),
    }
}

fn told_runs(alloc: Global, grid: &Grid, t: &Transform) -> Result<String, Fault> {
    pieces(alloc, pieces_of(alloc, t, grid)?.items())
}

fn pieces_of(alloc: Global, t: &Transform, grid: &Grid) -> Result<List<RunPiece>, Fault> {
    let Ok(count) = t.count() else {
        return Err(Fault::Line);
    };
    if count > 4_194_304 {
        return Err(Fault::Line);
    }
    match first_leaving(t, grid.shape())? {
        Some(_) => Err(Fault::Line),
        None => Ok(runs(alloc, t, grid)?),
    }
}

fn cut_of(alloc: Global, grid: &Grid, v: &Value) -> Result<String, Fault> {
    let cells = cells(alloc, v)?;
    pieces(alloc, pieces_over(alloc, &cells, grid)?.items())
}

fn pieces_over(alloc: Global, cells: &[Index], grid: &Grid) -> Result<List<RunPiece>, Fault> {
    if cells.len() > 4_194_304 || !are_inside(grid.shape(), cells) {
        return Err(Fault::Line);
    }
    Ok(runs_of(alloc, cells, grid)?)
}

fn cells(alloc: Global, v: &Value) -> Result<Vec<Index>, Fault> {
    let mut cells = Vec::new(alloc);
    for item in items(v)? {
        cells.push(Index::wrap(numbers_of(alloc, item)?))?;
    }
    Ok(cells)
}

fn are_inside(shape: &[u64], cells: &[Index]) -> bool
    ensures { result ≡ true → All (IsInShape shape.now) cells.now }
{
    for cell in cells {
        if !is_inside(shape, cell.items()) {
            return false;
        }
    }
    true
}

// Each chunk with its runs: `[INDEX](VIEW, VIEW_STEP, CHUNK, CHUNK_STEP, LEN)..`, all joined.
fn pieces(alloc: Global, pieces: &[RunPiece]) -> Result<String, Fault> {
    let mut text = String::new(alloc);
    for piece in pieces {
        put(alloc, &mut text, &piece.chunk.items())?;
        for run in piece.runs.items() {
            put(
                alloc,
                &mut text,
                &(run.view, run.view_step, run.chunk, run.chunk_step, run.len),
            )?;
        }
    }
    Ok(text)
}

fn put<T: Debug>(alloc: Global, text: &mut String, value: &T) -> Result<(), Fault> {
    let word = told(alloc, value)?;
    Ok(text.push_str(&word)?)
}
