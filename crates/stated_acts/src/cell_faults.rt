// Views that a line may not read or write.
ghost use Rattle.std.specs.Prelude.{◌≡◌, ℕ, Ok, None, IfErr, OnOk};
ghost use Rattle.history.specs.Acts.{Asked, without};
ghost use Rattle.history.specs.Viewing.{cell_fault};
ghost use Rattle.index_transform.specs.Cells.{count_answer};
ghost use Rattle.line_acts.specs.Refused.{IsAnswerTo};
ghost use Rattle.stack_driver.specs.Conditions.{IsView};
ghost use Rattle.stack_driver.specs.Views.{look_of};

use line_acts::{Body, targets_body};
use stack_driver::View;
use stack_targets::{Targets, targets};
use std::alloc::Global;

/// Looks for a cell of a view that has no target.
///
/// # Errors
/// The answer by the first cell without one, or want of memory.
pub(crate) fn check_cells(alloc: Global, v: &View) -> Result<(), Body>
    requires view { IsView v.now }
    requires counted { (n : ℕ) × (count_answer (look_of v.now).dims ≡ Ok n) }
    ensures found { OnOk result (cell_fault v.now ≡ None) }
    ensures err { IfErr result (λ b. (next : Asked) → IsAnswerTo (without (cell_fault v.now) next) b) }
{
    match targets(alloc, v) {
        Ok(found) => all_found(found),
        Err(e) => Err(targets_body(alloc, v, e)),
    }
}

// Nothing is wrong where each cell has its target.
fn all_found(_: Targets) -> Result<(), Body>
    ensures { result ≡ Ok tt }
{
    Ok(())
}
