// Chunks by their indices, with the runs of the pairs so far.
ghost use Rattle.std.specs.Prelude.{◌≡◌, ◌≤◌, ◌<◌, ◌+◌, ◌^◌, ◌∷◌, ◌++◌, [], ℕ, List, Some, length, map, IfOk, OnOk, IfSome, if◌then◌else◌};
ghost use Rattle.std.specs.Str.{bytes_eq};
ghost use Rattle.std.specs.BTreeMap.{IsOrdered};
ghost use Rattle.chunk_grid.specs.Grid.{IsInShape, numbers};
ghost use Rattle.chunk_grid.specs.Pieces.{among};
ghost use Rattle.chunk_grid.specs.Cuts.{Key, by_key, AreCuts, IsUpTo, at, chunks_of, with_pair, piece_of};
ghost use Rattle.strided_runs.specs.Loops.{ArePlaces};

use crate::grid::Grid;
use crate::piece::RunPiece;
use cells::{List, Sizes};
use std::alloc::{AllocError, Global};
use std::collections::BTreeMap;
use strided_runs::Growing;

pub(crate) type Cuts = BTreeMap<Vec<u64>, Growing>;

/// No chunk.
pub(crate) fn new_cuts(alloc: Global) -> Cuts
    ensures { (chunk : List ℕ) → AreCuts chunk [] result }
{
    BTreeMap::new(alloc)
}

/// Puts a pair behind those of its chunk.
fn put(
    alloc: Global,
    cuts: &mut Cuts,
    chunk: &Vec<u64>,
    view: u32,
    place: u32,
) -> Result<(), AllocError>
    requires before { IfSome (at cuts.old chunk.now) (IsUpTo view) }
    requires small { view < 4194304 }
    ensures runs { OnOk result ((key : Key) → at cuts.new key
        ≡ (if bytes_eq chunk.now.items key.items then Some
        (with_pair (record { view = view; chunk = place }) (at cuts.old key)) else at cuts.old key)) }
    ensures chunks { OnOk result (chunks_of cuts.new ≡ among (chunks_of cuts.old) chunk.now.items) }
{
    if let Some(growing) = cuts.get_mut(chunk) {
        return growing.push(view, place);
    }
    let key = Vec::from_slice(alloc, chunk)?;
    match cuts.insert(key, Growing::new(alloc, view, place)) {
        Ok(_) => Ok(()),
        Err(_) => Err(AllocError),
    }
}

/// Puts the next target to its chunk. `chunk` has room for a chunk index.
pub(crate) fn add(
    alloc: Global,
    cuts: &mut Cuts,
    grid: &Grid,
    target: &[i64],
    chunk: &mut Vec<u64>,
    view: u32,
) -> Result<(), AllocError>
    requires before { (key : Key) → IfSome (at cuts.old key) (IsUpTo view) }
    requires small { view < 4194304 }
    requires inside { IsInShape grid.now.shape target.now }
    requires room { length chunk.old.items ≡ length grid.now.shape }
    ensures cuts { OnOk result ((targets : List (List ℕ)) → length targets ≡ view
        → AreCuts grid.now.chunk targets cuts.old
        → AreCuts grid.now.chunk (targets ++ numbers target.now ∷ []) cuts.new) }
    ensures room { length chunk.new.items ≡ length grid.now.shape }
{
    grid.chunk_of(target, chunk);
    let place = grid.place_in(target) as u32;
    put(alloc, cuts, chunk, view, place)
}

/// The pieces, in the chunks' order.
pub(crate) fn pieces_of(alloc: Global, cuts: Cuts) -> Result<List<RunPiece>, AllocError>
    ensures pieces { IfOk result (λ pieces. pieces ≡ map piece_of cuts.entries) }
    ensures ordered { IsOrdered by_key cuts }
{
    let mut pieces = Vec::with_capacity(alloc, cuts.len())?;
    for (chunk, growing) in cuts {
        pieces.push(RunPiece {
            chunk: Sizes::wrap(chunk),
            runs: growing.into_runs()?,
        })?;
    }
    Ok(List::wrap(pieces))
}
