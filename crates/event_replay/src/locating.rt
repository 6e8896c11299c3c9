// Where the cells of an operation lie.
ghost use Rattle.std.specs.Prelude.{◌≡◌, map, IfOk, OnOk};
ghost use Rattle.transaction_cells.specs.Lanes.{LaneSeen};
ghost use Rattle.transaction_cells.specs.Operations.{HasSites};
ghost use Rattle.transaction_cells.specs.Pieces.{AreCells};
ghost use Rattle.transaction_cells.specs.Sites.{sites_of};
ghost use Rattle.event_replay.specs.Pieces.{CanLocate};

use cast_driver::Chain;
use cells::List;
use stack_driver::View;
use stack_targets::TargetsError;
use std::alloc::{AllocError, Global};
use transaction_cells::{Lane, ViewCells, locate};

/// Where the cells of a view lie by chunks.
pub(crate) fn located(alloc: Global, view: &View) -> Result<ViewCells, AllocError>
    requires { CanLocate view.now }
    ensures cells { IfOk result (λ cells. AreCells (sites_of view.now) cells) }
    ensures sites { OnOk result (HasSites view.now) }
{
    match locate(alloc, view) {
        Ok(cells) => Ok(cells),
        Err(TargetsError::Memory) => Err(AllocError),
        Err(_) => unreachable!(),
    }
}

/// The casts of lanes.
pub(crate) fn chains_of(alloc: Global, lanes: List<Lane>) -> Result<Vec<Chain>, AllocError>
    ensures { IfOk result (λ chains. chains.items ≡ map (λ (lane : LaneSeen). lane.casts) lanes) }
{
    let mut chains = Vec::new(alloc);
    for lane in lanes.into_inner() {
        chains.push(lane.casts)?;
    }
    Ok(chains)
}
