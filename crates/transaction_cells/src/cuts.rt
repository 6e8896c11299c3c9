// Chunks by their ids, with the runs of the pairs so far.
ghost use Rattle.std.specs.Prelude.{◌≡◌, ◌<◌, ℕ, List, Some, length, map, IfOk, OnOk, IfSome, if◌then◌else◌};
ghost use Rattle.std.specs.Str.{bytes_eq};
ghost use Rattle.std.specs.BTreeMap.{IsOrdered};
ghost use Rattle.transaction_cells.specs.Cuts.{with_pair, IsUpTo, piece_of};
ghost use Rattle.transaction_cells.specs.Found.{by_id, found};

use crate::lane::Lane;
use crate::lanes::size_of;
use crate::view_cells::Piece;
use cells::{List, Sizes};
use std::alloc::{AllocError, Global};
use std::collections::BTreeMap;
use strided_runs::Growing;

pub(crate) type Cuts = BTreeMap<Vec<u64>, Growing>;

/// Puts a pair behind those of its chunk.
pub(crate) fn put(
    alloc: Global,
    cuts: &mut Cuts,
    id: &Vec<u64>,
    view: u32,
    place: u32,
) -> Result<(), AllocError>
    requires before { IfSome (found cuts.old.entries id.now.items) (IsUpTo view) }
    requires small { view < 4194304 }
    ensures { OnOk result ((other : List ℕ) → found cuts.new.entries other
        ≡ (if bytes_eq id.now.items other then Some
        (with_pair (record { view = view; chunk = place })
        (found cuts.old.entries other)) else found cuts.old.entries other)) }
{
    if let Some(growing) = cuts.get_mut(id) {
        return growing.push(view, place);
    }
    let key = Vec::from_slice(alloc, id)?;
    match cuts.insert(key, Growing::new(alloc, view, place)) {
        Ok(_) => Ok(()),
        Err(_) => Err(AllocError),
    }
}

/// The pieces, in the order of their ids.
pub(crate) fn pieces_of(
    alloc: Global,
    cuts: Cuts,
    lanes: &[Lane],
) -> Result<List<Piece>, AllocError>
    ensures pieces { IfOk result (λ pieces. pieces ≡ map (piece_of lanes.now) cuts.entries) }
    ensures ordered { IsOrdered by_id cuts }
{
    let mut pieces = Vec::with_capacity(alloc, cuts.len())?;
    for (id, growing) in cuts {
        pieces.push(made(id, growing, lanes)?)?;
    }
    Ok(List::wrap(pieces))
}

fn made(id: Vec<u64>, growing: Growing, lanes: &[Lane]) -> Result<Piece, AllocError>
    ensures { IfOk result (λ p. p ≡ piece_of lanes.now (id, growing)) }
{
    let size = match id.first() {
        Some(array) => size_of(lanes, *array),
        None => 0,
    };
    let runs = growing.into_runs()?;
    Ok(Piece {
        id: Sizes::wrap(id),
        size,
        runs,
    })
}
