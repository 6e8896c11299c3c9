// The cells of a view in one chunk, run by run.
ghost use Rattle.std.specs.Prelude.{◌≡◌, ◌<◌, ◌++◌, ◌^◌, pos, ◌≤ℤ◌, ◌<ℤ◌, length, map, get_or, IfOk, OnOk};
ghost use Rattle.std.specs.List.{AllByRecursion, flat_map};
ghost use Rattle.cells.specs.Runs.{IsRunInside, view_place, chunk_place, chunk_number, pairs_of};
ghost use Rattle.cells.specs.declared.run.Run.{Run as RunOf};
ghost use Rattle.transaction_cells.specs.declared.view_cells.Piece.{Piece as PieceOf};
ghost use Rattle.event_replay.specs.Placed.{placed_word, asked_cell};

use cells::Run;
use std::alloc::{AllocError, Global};
use transaction_cells::{CellLeaves, Piece};
use version_store::{AskedCell, PlacedWord};

/// A view's words of one chunk, each at its place there.
pub(crate) fn placed_words(
    alloc: Global,
    runs: &[Run],
    words: &[u64],
) -> Result<Vec<PlacedWord>, AllocError>
    requires { AllByRecursion (λ run. IsRunInside run (length words.now) (2 ^ 24)) runs.now }
    ensures { IfOk result (λ placed. placed.items ≡ map (placed_word words.now) (flat_map pairs_of runs.now)) }
{
    let mut placed = Vec::new(alloc);
    for i in 0..runs.len() {
        place_run(&mut placed, run_at(runs, i), words)?;
    }
    Ok(placed)
}

fn place_run(placed: &mut Vec<PlacedWord>, run: Run, words: &[u64]) -> Result<(), AllocError>
    requires { IsRunInside run (length words.now) (2 ^ 24) }
    ensures { OnOk result (placed.new.items ≡ placed.old.items ++ map (placed_word words.now) (pairs_of run)) }
{
    for k in 0..run.len {
        let (view, place) = pair_at(run, k);
        let word = words[view];
        placed.push(PlacedWord { place, word })?;
    }
    Ok(())
}

/// The cells of a view in one chunk, as a read asks for them.
pub(crate) fn asked_cells(
    alloc: Global,
    runs: &[Run],
    leaves: &CellLeaves,
    words: &[u64],
) -> Result<Vec<AskedCell>, AllocError>
    requires runs { AllByRecursion (λ run. IsRunInside run (length words.now) (2 ^ 24)) runs.now }
    requires leaves { length leaves.now ≡ length words.now }
    ensures { IfOk result (λ asked. asked.items ≡ map (asked_cell leaves.now words.now) (flat_map pairs_of runs.now)) }
{
    let mut asked = Vec::new(alloc);
    for i in 0..runs.len() {
        ask_run(&mut asked, run_at(runs, i), leaves, words)?;
    }
    Ok(asked)
}

fn ask_run(
    asked: &mut Vec<AskedCell>,
    run: Run,
    leaves: &CellLeaves,
    words: &[u64],
) -> Result<(), AllocError>
    requires run { IsRunInside run (length words.now) (2 ^ 24) }
    requires leaves { length leaves.now ≡ length words.now }
    ensures { OnOk result (asked.new.items ≡ asked.old.items ++ map (asked_cell leaves.now words.now) (pairs_of run)) }
{
    for k in 0..run.len {
        let (view, place) = pair_at(run, k);
        let (leaf, word) = (leaves.leaf(view), words[view]);
        asked.push(AskedCell { place, leaf, word })?;
    }
    Ok(())
}

/// A piece of several.
pub(crate) fn piece_at(pieces: &[Piece], at: usize) -> &Piece
    requires { at < length pieces.now }
    ensures { (d : PieceOf) → result.now ≡ get_or pieces.now at d }
{
    &pieces[at]
}

fn run_at(runs: &[Run], at: usize) -> Run
    requires { at < length runs.now }
    ensures { (d : RunOf) → result ≡ get_or runs.now at d }
{
    runs[at]
}

// The view's place and the chunk's place of pair `k`.
fn pair_at(run: Run, k: u32) -> (usize, u32)
    requires in_view { view_place run k < 2 ^ 64 }
    requires from_first { pos 0 ≤ℤ chunk_number run k }
    requires to_last { chunk_number run k <ℤ pos (2 ^ 24) }
    ensures view { result.0 ≡ view_place run k }
    ensures chunk { result.1 ≡ chunk_place run k }
{
    let view = run.view as usize + run.view_step as usize * k as usize;
    let place = i64::from(run.chunk) + run.chunk_step * i64::from(k);
    (view, place as u32)
}
