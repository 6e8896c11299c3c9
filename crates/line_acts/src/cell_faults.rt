// Views whose cells a line may not name.
ghost use Rattle.std.specs.Prelude.{◌≡◌, ◌≢◌, ◌<◌, ℕ, Ok, Err, IsTrue, IfOk, IfErr, length, slice_index_or};
ghost use Rattle.std.specs.List.{list_all};
ghost use Rattle.history.specs.Acts.{Asked, without};
ghost use Rattle.history.specs.Viewing.{view_fault, cell_fault};
ghost use Rattle.index_transform.specs.Cells.{cells_of, count_answer, is_finite};
ghost use Rattle.line_acts.specs.Refused.{IsAnswerTo};
ghost use Rattle.line_meanings.specs.declared.Body.TheVariants.{Memory};
ghost use Rattle.stack_driver.specs.Views.{look_of};
ghost use Rattle.stack_targets.specs.Buffers.{all_targets};

use cells::Index;
use index_transform::{CountError, Walk};
use line_meanings::Body;
use stack_driver::{View, transform_of};
use stack_targets::TargetsError;
use std::alloc::{AllocError, Global};

/// How many cells a view has. It takes no memory.
///
/// # Errors
/// `Unbounded` with the first dimension that is infinite, else `TooMany` where there are more than 2^22 cells, with the first dimension up to which
/// there are.
pub fn counted(v: &View) -> Result<u64, Body>
    ensures count { IfOk result (λ n. count_answer (look_of v.now).dims ≡ Ok n) }
    ensures cells { IfOk result (λ n. n ≡ length (cells_of (look_of v.now).dims)) }
    ensures err { IfErr result (λ b. (next : Asked) → IsAnswerTo (without (view_fault v.now) next) b) }
    ensures told { IfErr result (λ b. b ≢ Memory) }
{
    match transform_of(v).count() {
        Ok(n) => Ok(n),
        Err(CountError::Unbounded { dim }) => Err(Body::Unbounded { dim }),
        Err(CountError::TooMany { dim }) => Err(Body::TooMany { dim }),
    }
}

/// The answer where the targets of a view's cells aren't told: the index vector of the first cell without one, or want of memory.
pub fn targets_body(alloc: Global, v: &View, e: TargetsError) -> Body
    requires counted { (n : ℕ) × (count_answer (look_of v.now).dims ≡ Ok n) }
    requires fault { e ≢ TargetsError.Memory → all_targets v.now ≡ Err e }
    ensures { (next : Asked) → IsAnswerTo (without (cell_fault v.now) next) result }
{
    match e {
        TargetsError::OutOfRange { cell, dim } => match cell_at(alloc, v, cell) {
            Ok(cell) => Body::OutOfRange { cell, dim },
            Err(_) => Body::Memory,
        },
        TargetsError::Uncovered { cell } => match cell_at(alloc, v, cell) {
            Ok(cell) => Body::Uncovered { cell },
            Err(_) => Body::Memory,
        },
        TargetsError::Memory => Body::Memory,
    }
}

// The index vector of the cell at a place in C order.
fn cell_at(alloc: Global, v: &View, cell: u64) -> Result<Index, AllocError>
    requires finite { IsTrue (list_all is_finite (look_of v.now).dims) }
    requires below { cell < length (cells_of (look_of v.now).dims) }
    ensures { IfOk result (λ x. slice_index_or (cells_of (look_of v.now).dims) cell x ≡ x) }
{
    let domain = transform_of(v).domain();
    let mut walk = Walk::new(alloc, domain)?;
    nth(alloc, &mut walk, domain.dims.items().len(), cell)
}

fn nth(alloc: Global, walk: &mut Walk, rank: usize, cell: u64) -> Result<Index, AllocError>
    requires rank { walk.old.rank ≡ rank }
    requires below { cell < length walk.old.cells }
    ensures { IfOk result (λ x. slice_index_or walk.old.cells cell x ≡ x) }
{
    let mut index = vec![in alloc; 0; rank]?;
    walk_to(walk, &mut index, cell);
    Ok(Index::wrap(index))
}

// Writes the index vector at a place of a walk into `out`.
fn walk_to(walk: &mut Walk, out: &mut [i64], cell: u64)
    requires rank { length out.old ≡ walk.old.rank }
    requires below { cell < length walk.old.cells }
    ensures { slice_index_or walk.old.cells cell out.new ≡ out.new }
{
    for _ in 0..cell {
        walk.advance(out);
    }
    walk.advance(out);
}
