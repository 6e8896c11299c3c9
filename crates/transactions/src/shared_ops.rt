// The operations of a transaction, as its events will share them.
ghost use Rattle.std.specs.Prelude.{◌≡◌, ◌++◌, IfOk};
ghost use Rattle.std.specs.List.{AllByRecursion};
ghost use Rattle.transactions.specs.Recording.{IsOfView};
ghost use Rattle.transactions.specs.Txn.{shared_ops};

use cells::{List, Words};
use history::{Op, Ops};
use stack_driver::copy;
use std::alloc::{AllocError, Global};

/// All operations: those that a commit which failed had shared, and those since. They aren't copied, as nobody else shares them.
///
/// # Errors
/// Want of memory alone.
pub(crate) fn joined(alloc: Global, shared: Option<Ops>, ops: Vec<Op>) -> Result<Ops, AllocError>
    requires { AllByRecursion IsOfView (shared_ops shared) }
    ensures { IfOk result (λ o. o ≡ shared_ops shared ++ ops.items) }
{
    match shared {
        None => Ops::wrap(alloc, List::wrap(ops)),
        Some(shared) => behind(alloc, shared, ops),
    }
}

fn behind(alloc: Global, shared: Ops, ops: Vec<Op>) -> Result<Ops, AllocError>
    requires { AllByRecursion IsOfView shared }
    ensures { IfOk result (λ o. o ≡ shared ++ ops.items) }
{
    if ops.is_empty() {
        return Ok(shared);
    }
    let all = appended(owned(alloc, shared)?, ops)?;
    Ops::wrap(alloc, List::wrap(all))
}

fn appended(mut all: Vec<Op>, ops: Vec<Op>) -> Result<Vec<Op>, AllocError>
    ensures { IfOk result (λ v. v.items ≡ all.items ++ ops.items) }
{
    for op in ops {
        all.push(op)?;
    }
    Ok(all)
}

fn owned(alloc: Global, shared: Ops) -> Result<Vec<Op>, AllocError>
    requires { AllByRecursion IsOfView shared }
    ensures { IfOk result (λ v. v.items ≡ shared) }
{
    match shared.into_list() {
        Ok(list) => Ok(list.into_inner()),
        Err(shared) => copied(alloc, shared.items()),
    }
}

fn copied(alloc: Global, ops: &[Op]) -> Result<Vec<Op>, AllocError>
    requires { AllByRecursion IsOfView ops.now }
    ensures { IfOk result (λ v. v.items ≡ ops.now) }
{
    let mut all = Vec::new(alloc);
    for op in ops {
        all.push(copy_op(alloc, op)?)?;
    }
    Ok(all)
}

fn copy_op(alloc: Global, op: &Op) -> Result<Op, AllocError>
    requires { IsOfView op.now }
    ensures { IfOk result (λ o. o ≡ op.now) }
{
    match op {
        Op::Write { view, words } => {
            let words = words.copy(alloc)?;
            let view = copy(alloc, view)?;
            Ok(Op::Write { view, words })
        }
        Op::Read { view, words } => {
            let words = copy_words(alloc, words)?;
            let view = copy(alloc, view)?;
            Ok(Op::Read { view, words })
        }
    }
}

fn copy_words(alloc: Global, words: &Words) -> Result<Words, AllocError>
    ensures { IfOk result (λ w. w ≡ words.now) }
{
    Ok(Words::wrap(Vec::from_slice(alloc, words.items())?))
}
