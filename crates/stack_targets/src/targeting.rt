// The targets of all cells of a view.
ghost use Rattle.std.specs.Prelude.{◌≡◌, ◌≢◌, ◌<◌, List, [], Ok, Err, length, IsTrue, IfOk, IfErr, OnOk};
ghost use Rattle.std.specs.List.{list_all};
ghost use Rattle.index_intervals.specs.Bounds.{is_ordered};
ghost use Rattle.index_transform.specs.Cells.{cells_of, is_finite};
ghost use Rattle.stack_driver.specs.Conditions.{IsView};
ghost use Rattle.stack_driver.specs.Views.{look_of};
ghost use Rattle.stack_targets.specs.Buffers.{all_landings, all_targets, fault_at, told_landings, told_targets};
ghost use Rattle.stack_targets.specs.Landings.{leaves_of};
ghost use Rattle.stack_targets.specs.Numberings.{numbering_of};

use crate::buffers::{Buffers, Targets};
use crate::error::TargetsError;
use crate::landing::land;
use crate::numbering::{Numbering, number};
use cells::List;
use index_transform::Walk;
use stack_driver::{TargetError, View, leaves, transform_of};
use std::alloc::{AllocError, Global};

/// Where each cell of a view lies, whose domain is finite by its bounds as they stand.
///
/// No memory is taken for a cell by itself. The view's leaves are numbered once.
///
/// # Errors
///
/// - `OutOfRange` or `Uncovered` with the first cell in C order that has no target, and why it has none, as `target` of
///   `stack_driver` tells it.
/// - `Memory`, which may come before another is seen. It comes too where the view has 2^32 - 1 leaves or more.
pub fn targets(alloc: Global, v: &View) -> Result<Targets, TargetsError>
    requires view { IsView v.now }
    requires finite { IsTrue (list_all is_finite (look_of v.now).dims) }
    ensures targets { IfOk result (λ t. all_targets v.now ≡ Ok (told_targets (leaves_of v.now) t.leaves t.numbers)) }
    ensures landings { IfOk result (λ t. all_landings v.now ≡ Ok (told_landings (leaves_of v.now) t.leaves t.numbers)) }
    ensures err { IfErr result (λ e. e ≢ TargetsError.Memory → all_targets v.now ≡ Err e) }
{
    if !has_few_leaves(v) {
        return Err(TargetsError::Memory);
    }
    let mut walk = Walk::new(alloc, transform_of(v).domain())?;
    along(alloc, v, &mut walk)
}

// Whether the leaves' numbers fit 32 bits.
fn has_few_leaves(v: &View) -> bool
    ensures { IsTrue result → length (leaves_of v.now) < 4294967295 }
{
    leaves(v) < u32::MAX
}

fn along(alloc: Global, v: &View, walk: &mut Walk) -> Result<Targets, TargetsError>
    requires view { IsView v.now }
    requires few { length (leaves_of v.now) < 4294967295 }
    requires finite { IsTrue (list_all is_finite (look_of v.now).dims) }
    requires ordered { IsTrue (list_all is_ordered (look_of v.now).dims) }
    requires cells { walk.old.cells ≡ cells_of (look_of v.now).dims }
    requires rank { walk.old.rank ≡ length (look_of v.now).dims }
    ensures targets { IfOk result (λ t. all_targets v.now ≡ Ok (told_targets (leaves_of v.now) t.leaves t.numbers)) }
    ensures landings { IfOk result (λ t. all_landings v.now ≡ Ok (told_landings (leaves_of v.now) t.leaves t.numbers)) }
    ensures err { IfErr result (λ e. e ≢ TargetsError.Memory → all_targets v.now ≡ Err e) }
{
    let rank = transform_of(v).domain().dims.items().len();
    let mut index = Vec::from_elem(alloc, 0i64, rank)?;
    let numbering = number(alloc, v)?;
    gathered(alloc, v, &numbering, walk, &mut index)
}

// The buffers, where all cells have landed.
fn gathered(
    alloc: Global,
    v: &View,
    numbering: &Numbering,
    walk: &mut Walk,
    index: &mut [i64],
) -> Result<Targets, TargetsError>
    requires view { IsView v.now }
    requires few { length (leaves_of v.now) < 4294967295 }
    requires finite { IsTrue (list_all is_finite (look_of v.now).dims) }
    requires ordered { IsTrue (list_all is_ordered (look_of v.now).dims) }
    requires cells { walk.old.cells ≡ cells_of (look_of v.now).dims }
    requires rank { walk.old.rank ≡ length (look_of v.now).dims }
    requires room { length index.old ≡ length (look_of v.now).dims }
    requires numbered { numbering.now ≡ numbering_of v.now }
    ensures targets { IfOk result (λ t. all_targets v.now ≡ Ok (told_targets (leaves_of v.now) t.leaves t.numbers)) }
    ensures landings { IfOk result (λ t. all_landings v.now ≡ Ok (told_landings (leaves_of v.now) t.leaves t.numbers)) }
    ensures err { IfErr result (λ e. e ≢ TargetsError.Memory → all_targets v.now ≡ Err e) }
{
    let mut buffers = room_for(alloc, v)?;
    match gather(v, numbering, walk, index, &mut buffers) {
        Ok(()) => Ok(told(buffers)),
        Err(e) => Err(e),
    }
}

// Empty buffers, with room for the leaves and indices of as many cells as the domain has.
fn room_for(alloc: Global, v: &View) -> Result<Buffers, AllocError>
    ensures leaves { IfOk result (λ b. b.leaves.items ≡ []) }
    ensures numbers { IfOk result (λ b. b.numbers.items ≡ []) }
{
    let domain = transform_of(v);
    let cells = domain.count().unwrap_or(0) as usize;
    let rank = domain.domain().dims.items().len();
    let leaves = Vec::with_capacity(alloc, cells)?;
    let numbers = Vec::with_capacity(alloc, cells.saturating_mul(rank))?;
    Ok(Buffers { leaves, numbers })
}

fn told(buffers: Buffers) -> Targets
    ensures { result ≡ record { leaves = buffers.leaves.items; numbers = buffers.numbers.items } }
{
    let Buffers { leaves, numbers } = buffers;
    Targets {
        leaves: List::wrap(leaves),
        numbers: List::wrap(numbers),
    }
}

// Lets each cell land, until one can't.
fn gather(
    v: &View,
    numbering: &Numbering,
    walk: &mut Walk,
    index: &mut [i64],
    buffers: &mut Buffers,
) -> Result<(), TargetsError>
    requires view { IsView v.now }
    requires few { length (leaves_of v.now) < 4294967295 }
    requires finite { IsTrue (list_all is_finite (look_of v.now).dims) }
    requires ordered { IsTrue (list_all is_ordered (look_of v.now).dims) }
    requires cells { walk.old.cells ≡ cells_of (look_of v.now).dims }
    requires rank { walk.old.rank ≡ length (look_of v.now).dims }
    requires room { length index.old ≡ length (look_of v.now).dims }
    requires numbered { numbering.now ≡ numbering_of v.now }
    requires no_leaves { buffers.old.leaves.items ≡ [] }
    requires no_numbers { buffers.old.numbers.items ≡ [] }
    ensures ok { OnOk result (all_landings v.now
        ≡ Ok (told_landings (leaves_of v.now) buffers.new.leaves.items buffers.new.numbers.items)) }
    ensures err { IfErr result (λ e. e ≢ TargetsError.Memory → all_landings v.now ≡ Err e) }
{
    while walk.advance(index) {
        match land(v, numbering, index, &mut buffers.numbers) {
            Ok(leaf) => buffers.leaves.push(leaf)?,
            Err(e) => return Err(fault_at(buffers.leaves.len() as u64, e)),
        }
    }
    Ok(())
}

// The fault of a cell, by its place.
fn fault_at(cell: u64, e: TargetError) -> TargetsError
    ensures { result ≡ fault_at cell e }
{
    match e {
        TargetError::OutOfRange { dim } => TargetsError::OutOfRange { cell, dim },
        TargetError::Uncovered => TargetsError::Uncovered { cell },
        TargetError::Memory => TargetsError::Memory,
    }
}
