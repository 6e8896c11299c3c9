// The answers to what is wrong with a view.
ghost use Rattle.std.specs.Prelude.{◌≡◌, ℕ, Ok};
ghost use Rattle.history.specs.Acts.{Asked, without};
ghost use Rattle.history.specs.Viewing.{cell_fault};
ghost use Rattle.index_transform.specs.Cells.{count_answer};
ghost use Rattle.session_turns.specs.Told.{IsAnswerTo};
ghost use Rattle.stack_driver.specs.Views.{look_of};
ghost use Rattle.transactions.specs.Faults.{IsFaultOf};

use line_acts::{Body, TargetsError, targets_body};
use stack_driver::View;
use std::alloc::Global;
use transactions::ViewFault;

/// The answer where a cell of a view has no target.
pub fn fault_body(alloc: Global, v: &View, fault: ViewFault) -> Body
    requires counted { (n : ℕ) × (count_answer (look_of v.now).dims ≡ Ok n) }
    requires fault { IsFaultOf v.now fault }
    ensures { (next : Asked) → IsAnswerTo (without (cell_fault v.now) next) result }
{
    match fault {
        ViewFault::Unbounded { dim } => Body::Unbounded { dim },
        ViewFault::TooMany { dim } => Body::TooMany { dim },
        ViewFault::OutOfRange { cell, dim } => {
            targets_body(alloc, v, TargetsError::OutOfRange { cell, dim })
        }
        ViewFault::Uncovered { cell } => targets_body(alloc, v, TargetsError::Uncovered { cell }),
    }
}
