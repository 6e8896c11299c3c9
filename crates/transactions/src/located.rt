// The cells of a view that may be read or written.
ghost use Rattle.std.specs.Prelude.{◌≡◌, ◌≢◌, ◌≤◌, Ok, Err, IsTrue, IfOk, IfErr, OnOk, length};
ghost use Rattle.std.specs.List.{list_all};
ghost use Rattle.index_transform.specs.Cells.{cells_of, count_answer, is_finite};
ghost use Rattle.stack_driver.specs.declared.view.View.{View as ViewOf};
ghost use Rattle.stack_targets.specs.Buffers.{all_targets};
ghost use Rattle.stack_targets.specs.declared.error.TargetsError.TheVariants as targets;
ghost use Rattle.stack_driver.specs.Conditions.{IsView};
ghost use Rattle.stack_driver.specs.Views.{look_of};
ghost use Rattle.stack_targets.specs.Landings.{leaves_of};
ghost use Rattle.chunk_fetches.specs.Lanes.{AreAlike};
ghost use Rattle.chunk_fetches.specs.Operations.{HasSites};
ghost use Rattle.chunk_fetches.specs.Pieces.{AreCells};
ghost use Rattle.chunk_fetches.specs.Sites.{sites_of};
ghost use Rattle.transactions.specs.Faults.{IsFaultOf, IsLocateFault};

use crate::error::WriteError;
use chunk_fetches::{ViewCells, ViewFault, locate};
use index_transform::CountError;
use stack_driver::{View, transform_of};
use stack_targets::TargetsError;
use std::alloc::Global;

/// Where the cells of a view lie.
///
/// # Errors
/// - `View` with the first thing that is wrong with the view.
/// - `Memory`.
pub(crate) fn located(alloc: Global, v: &View) -> Result<ViewCells, WriteError>
    requires view { IsView v.now }
    requires alike { AreAlike (leaves_of v.now) }
    ensures cells { IfOk result (λ cells. AreCells (sites_of v.now) cells) }
    ensures sites { OnOk result (HasSites v.now) }
    ensures count { IfOk result (λ cells. count_answer (look_of v.now).dims ≡ Ok (length cells.leaves)) }
    ensures err { IfErr result (IsLocateFault v.now) }
{
    match transform_of(v).count() {
        Ok(_) => found(alloc, v),
        Err(e) => Err(WriteError::View {
            fault: uncounted(e),
        }),
    }
}

fn found(alloc: Global, v: &View) -> Result<ViewCells, WriteError>
    requires view { IsView v.now }
    requires alike { AreAlike (leaves_of v.now) }
    requires finite { IsTrue (list_all is_finite (look_of v.now).dims) }
    requires few { length (cells_of (look_of v.now).dims) ≤ 4194304 }
    ensures cells { IfOk result (λ cells. AreCells (sites_of v.now) cells) }
    ensures sites { OnOk result (HasSites v.now) }
    ensures count { IfOk result (λ cells. length cells.leaves ≡ length (cells_of (look_of v.now).dims)) }
    ensures err { IfErr result (IsLocateFault v.now) }
{
    match locate(alloc, v) {
        Ok(cells) => Ok(cells),
        Err(e) => Err(without_target(e)),
    }
}

fn uncounted(e: CountError) -> ViewFault
    ensures { (v : ViewOf) → count_answer (look_of v).dims ≡ Err e → IsFaultOf v result }
{
    match e {
        CountError::Unbounded { dim } => ViewFault::Unbounded { dim },
        CountError::TooMany { dim } => ViewFault::TooMany { dim },
    }
}

fn without_target(e: TargetsError) -> WriteError
    ensures { (v : ViewOf) → (e ≢ targets.Memory → all_targets v ≡ Err e) → IsLocateFault v result }
{
    match e {
        TargetsError::OutOfRange { cell, dim } => {
            let fault = ViewFault::OutOfRange { cell, dim };
            WriteError::View { fault }
        }
        TargetsError::Uncovered { cell } => {
            let fault = ViewFault::Uncovered { cell };
            WriteError::View { fault }
        }
        TargetsError::Memory => WriteError::Memory,
    }
}
