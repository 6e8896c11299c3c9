// Where the cells of a view lie by chunks.
ghost use Rattle.std.specs.Prelude.{◌≡◌, ◌≢◌, ◌≤◌, ◌<◌, ◌++◌, ◌∷◌, [], ℕ, List, Err, length, map, IsTrue, IfOk, IfErr, IfSome, OnOk};
ghost use Rattle.std.specs.List.{AllByRecursion, list_all};
ghost use Rattle.cells.specs.Shapes.{IsChunkShape};
ghost use Rattle.cells.specs.Places.{c_place};
ghost use Rattle.history.specs.Chunks.{chunk_index, within_chunk};
ghost use Rattle.index_transform.specs.Cells.{cells_of, is_finite};
ghost use Rattle.stack_driver.specs.Conditions.{IsView};
ghost use Rattle.stack_driver.specs.Views.{look_of};
ghost use Rattle.stack_targets.specs.Buffers.{all_targets, told_landings};
ghost use Rattle.stack_targets.specs.Landings.{leaves_of};
ghost use Rattle.transaction_cells.specs.Cuts.{AreCuts, IsUpTo};
ghost use Rattle.transaction_cells.specs.Found.{found};
ghost use Rattle.transaction_cells.specs.Lanes.{AreAlike, HaveOneShape, HasGrid, lane_of};
ghost use Rattle.transaction_cells.specs.Operations.{HasSites};
ghost use Rattle.transaction_cells.specs.Pieces.{AreCells, ArePieces};
ghost use Rattle.transaction_cells.specs.Sites.{Site, sites_of, site_by, told_sites, AreTold, IsLanded};

use crate::along_runs::{along_runs, array_within};
use crate::cell_leaves::CellLeaves;
use crate::cuts::{Cuts, pieces_of, put};
use crate::lane::Lane;
use crate::lanes::lanes_of;
use crate::view_cells::{Piece, ViewCells};
use cells::List;
use stack_driver::View;
use stack_targets::{Targets, TargetsError, targets};
use std::alloc::{AllocError, Global};
use std::collections::BTreeMap;

/// Where the cells of a view lie by chunks, and behind which casts. The view is finite by its bounds as they stand, and has at
/// most 2^22 cells.
///
/// # Errors
///
/// - `OutOfRange` or `Uncovered` with the first cell in C order that has no target, and why it has none.
/// - `Memory`, which may come before another is seen.
pub fn locate(alloc: Global, v: &View) -> Result<ViewCells, TargetsError>
    requires view { IsView v.now }
    requires finite { IsTrue (list_all is_finite (look_of v.now).dims) }
    requires few { length (cells_of (look_of v.now).dims) ≤ 4194304 }
    requires alike { AreAlike (leaves_of v.now) }
    ensures cells { IfOk result (λ cells. AreCells (sites_of v.now) cells) }
    ensures sites { OnOk result (HasSites v.now) }
    ensures err { IfErr result (λ e. e ≢ TargetsError.Memory → all_targets v.now ≡ Err e) }
    ensures lanes { IfOk result (λ cells. cells.lanes ≡ map lane_of (leaves_of v.now)) }
{
    match array_within(v) {
        Some(array) => Ok(along_runs(alloc, v, array)?),
        None => cell_by_cell(alloc, v),
    }
}

// The same, by each cell's own target.
fn cell_by_cell(alloc: Global, v: &View) -> Result<ViewCells, TargetsError>
    requires view { IsView v.now }
    requires finite { IsTrue (list_all is_finite (look_of v.now).dims) }
    requires few { length (cells_of (look_of v.now).dims) ≤ 4194304 }
    requires alike { AreAlike (leaves_of v.now) }
    ensures cells { IfOk result (λ cells. AreCells (sites_of v.now) cells) }
    ensures sites { OnOk result (HasSites v.now) }
    ensures err { IfErr result (λ e. e ≢ TargetsError.Memory → all_targets v.now ≡ Err e) }
    ensures lanes { IfOk result (λ cells. cells.lanes ≡ map lane_of (leaves_of v.now)) }
{
    let t = targets(alloc, v)?;
    let (lanes, pieces) = cut(alloc, v, &t)?;
    Ok(ViewCells {
        leaves: CellLeaves::each(t.leaves),
        lanes,
        pieces,
    })
}

// The lanes of a view, and the pieces of its cells.
fn cut(alloc: Global, v: &View, t: &Targets) -> Result<(List<Lane>, List<Piece>), AllocError>
    requires view { IsView v.now }
    requires few { length t.now.leaves ≤ 4194304 }
    requires landed { AllByRecursion (IsLanded (leaves_of v.now))
        (told_landings (leaves_of v.now) t.now.leaves t.now.numbers) }
    requires alike { AreAlike (leaves_of v.now) }
    ensures lanes { IfOk result (λ r. r.0 ≡ map lane_of (leaves_of v.now)) }
    ensures ranks { OnOk result (AllByRecursion HasGrid (leaves_of v.now)) }
    ensures pieces { IfOk result (λ r. ArePieces
        (told_sites (map lane_of (leaves_of v.now)) t.now.leaves t.now.numbers) r.1) }
{
    let lanes = lanes_of(alloc, v)?;
    let pieces = pieces_among(alloc, lanes.items(), t)?;
    Ok((lanes, pieces))
}

fn pieces_among(alloc: Global, lanes: &[Lane], t: &Targets) -> Result<List<Piece>, AllocError>
    requires few { length t.now.leaves ≤ 4194304 }
    requires told { AreTold lanes.now t.now.leaves t.now.numbers }
    requires alike { HaveOneShape lanes.now }
    ensures { IfOk result (λ pieces. ArePieces (told_sites lanes.now t.now.leaves t.now.numbers) pieces) }
{
    let mut cuts = BTreeMap::new(alloc);
    put_all(alloc, &mut cuts, lanes, t)?;
    pieces_of(alloc, cuts, lanes)
}

// Puts each cell to its chunk.
fn put_all(alloc: Global, cuts: &mut Cuts, lanes: &[Lane], t: &Targets) -> Result<(), AllocError>
    requires few { length t.now.leaves ≤ 4194304 }
    requires told { AreTold lanes.now t.now.leaves t.now.numbers }
    requires empty { AreCuts [] cuts.old }
    ensures { OnOk result (AreCuts (told_sites lanes.now t.now.leaves t.now.numbers) cuts.new) }
{
    let numbers = t.numbers.items();
    let mut id = Vec::new(alloc);
    let mut from = 0;
    for (view, leaf) in t.leaves.items().iter().enumerate() {
        let lane = &lanes[*leaf as usize];
        let to = from + lane.chunk.items().len();
        add(alloc, cuts, lane, &numbers[from..to], &mut id, view as u32)?;
        from = to;
    }
    Ok(())
}

// Puts the next cell to its chunk. `id` is written over.
fn add(
    alloc: Global,
    cuts: &mut Cuts,
    lane: &Lane,
    index: &[u64],
    id: &mut Vec<u64>,
    view: u32,
) -> Result<(), AllocError>
    requires before { (other : List ℕ) → IfSome (found cuts.old.entries other) (IsUpTo view) }
    requires small { view < 4194304 }
    requires same { length index.now ≡ length lane.now.chunk }
    ensures { OnOk result ((sites : List Site) → length sites ≡ view → AreCuts sites cuts.old
        → AreCuts (sites ++ site_by lane.now index.now ∷ []) cuts.new) }
{
    let chunk = lane.chunk.items();
    write_id(id, lane.array, chunk, index)?;
    let place = place_in(chunk, index);
    put(alloc, cuts, id, view, place)
}

// Writes the id of a cell's chunk.
fn write_id(id: &mut Vec<u64>, array: u64, chunk: &[u64], index: &[u64]) -> Result<(), AllocError>
    requires chunk { IsChunkShape chunk.now }
    requires same { length index.now ≡ length chunk.now }
    ensures { OnOk result (id.new.items ≡ array ∷ chunk_index chunk.now index.now) }
{
    id.clear();
    id.push(array)?;
    for k in 0..chunk.len() {
        id.push(index[k] / chunk[k])?;
    }
    Ok(())
}

// The place of a cell in its chunk: each size takes what stands before it a whole row further.
fn place_in(chunk: &[u64], index: &[u64]) -> u32
    requires chunk { IsChunkShape chunk.now }
    requires same { length index.now ≡ length chunk.now }
    ensures { result ≡ c_place chunk.now (within_chunk chunk.now index.now) }
{
    let mut place = 0;
    for k in 0..chunk.len() {
        place = place * chunk[k] + index[k] % chunk[k];
    }
    place as u32
}
