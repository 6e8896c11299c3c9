// The writes among operations.
ghost use Rattle.std.specs.Prelude.{◌≡◌, ◌++◌, ◌∷◌, [], IfOk, OnOk, filter, true, false};
ghost use Rattle.history.specs.Commit.{is_write};
ghost use Rattle.history.specs.declared.event.Op.{Op as OpOf};

use cells::List;
use history::{Op, Ops};
use stack_driver::copy;
use std::alloc::{AllocError, Global};

fn is_write(op: &Op) -> bool
    ensures { result ≡ is_write op.now }
{
    match op {
        Op::Write { .. } => true,
        Op::Read { .. } => false,
    }
}

/// Whether there is a read among operations.
fn has_read(ops: &[Op]) -> bool
    ensures { result ≡ false → filter is_write ops.now ≡ ops.now }
{
    for op in ops {
        if !is_write(op) {
            return true;
        }
    }
    false
}

/// Adds a copy of an operation, if it is a write.
fn add_write(alloc: Global, list: &mut Vec<Op>, op: &Op) -> Result<(), AllocError>
    ensures { OnOk result (list.new.items ≡ list.old.items ++ filter is_write (op.now ∷ [])) }
{
    if let Op::Write { view, words } = op {
        let view = copy(alloc, view)?;
        let words = words.copy(alloc)?;
        list.push(Op::Write { view, words })?;
    }
    Ok(())
}

fn copied(alloc: Global, ops: &[Op]) -> Result<Ops, AllocError>
    ensures { IfOk result (λ o. o ≡ filter is_write ops.now) }
{
    let mut list = Vec::new(alloc);
    for op in ops {
        add_write(alloc, &mut list, op)?;
    }
    Ops::wrap(alloc, List::wrap(list))
}

/// The writes among operations, which are shared where there is nothing else.
pub(crate) fn writes_only(alloc: Global, ops: &Ops) -> Result<Ops, AllocError>
    ensures { IfOk result (λ o. o ≡ filter is_write ops.now) }
{
    if has_read(ops.items()) {
        copied(alloc, ops.items())
    } else {
        ops.share()
    }
}
