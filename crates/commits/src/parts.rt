// Plans, parted into what the state is told.
ghost use Rattle.std.specs.Prelude.{◌≡◌, ◌++◌, ◌∷◌, [], IfOk, OnOk};
ghost use Rattle.commits.specs.Keeping.{cells_by, chunk_of_plan, left_by};
ghost use Rattle.commits.specs.Plans.{ArePartsOf, change_of, held_of};

use crate::keeping::LeftCells;
use cells::{Dense, Name};
use chunk_plans::{HeldCells, Left, Planned};
use kv_face::Change;
use std::alloc::{AllocError, Global};

/// The changes of the store, the keys, the cells of local arrays, and those of stored chunks that may be kept.
#[derive(Drop)]
pub(crate) struct Parts<'a> {
    pub(crate) changes: Vec<Change>,
    pub(crate) keys: Vec<Name>,
    pub(crate) cells: Vec<HeldCells>,
    pub(crate) left: Vec<LeftCells<'a>>,
}

fn copied(alloc: Global, key: &Name) -> Result<Name, AllocError>
    ensures { IfOk result (λ n. n ≡ key.now) }
{
    Ok(Name::wrap(String::from_str(alloc, key.items())?))
}

/// The cells of stored chunks, with those of one more where they may be kept.
fn add_cells<'a>(
    left: &mut Vec<LeftCells<'a>>,
    array: u64,
    chunk: &'a [u64],
    cells: Option<Dense>,
) -> Result<(), AllocError>
    ensures { OnOk result (left.new.items
        ≡ left.old.items ++ cells_by (record { array = array; index = chunk.now }) cells []) }
{
    if let Some(cells) = cells {
        left.push(LeftCells {
            array,
            chunk,
            cells,
        })?;
    }
    Ok(())
}

/// The changes, and the cells of local arrays and of stored chunks, with those of one chunk more.
fn add_left<'a>(
    parts: &mut Parts<'a>,
    array: u64,
    chunk: &'a [u64],
    key: Name,
    left: Left,
) -> Result<(), AllocError>
    ensures changes { OnOk result (parts.new.changes.items ≡ parts.old.changes.items ++ change_of left key []) }
    ensures keys { parts.new.keys ≡ parts.old.keys }
    ensures cells { OnOk result (parts.new.cells.items ≡ parts.old.cells.items ++ held_of left []) }
    ensures left { OnOk result (parts.new.left.items
        ≡ parts.old.left.items ++ left_by (record { array = array; index = chunk.now }) left []) }
{
    match left {
        Left::Stored { bytes, cells } => {
            parts.changes.push(Change { key, bytes })?;
            add_cells(&mut parts.left, array, chunk, cells)
        }
        Left::Held { array, cells } => {
            parts.cells.push(HeldCells { array, cells })?;
            Ok(())
        }
    }
}

/// The parts with those of one plan more.
fn add<'a>(alloc: Global, parts: &mut Parts<'a>, plan: Planned<'a>) -> Result<(), AllocError>
    ensures changes { OnOk result (parts.new.changes.items
        ≡ parts.old.changes.items ++ change_of plan.entry.left plan.entry.key []) }
    ensures keys { OnOk result (parts.new.keys.items ≡ parts.old.keys.items ++ plan.entry.key ∷ []) }
    ensures cells { OnOk result (parts.new.cells.items ≡ parts.old.cells.items ++ held_of plan.entry.left []) }
    ensures left { OnOk result (parts.new.left.items
        ≡ parts.old.left.items ++ left_by (chunk_of_plan plan.entry) plan.entry.left []) }
{
    let Planned {
        array,
        chunk,
        key,
        left,
    } = plan;
    parts.keys.push(copied(alloc, &key)?)?;
    add_left(parts, array, chunk, key, left)
}

/// The parts of plans.
pub(crate) fn parted<'a>(alloc: Global, plans: Vec<Planned<'a>>) -> Result<Parts<'a>, AllocError>
    ensures { IfOk result (ArePartsOf plans.entry.items) }
{
    let mut parts = Parts {
        changes: Vec::new(alloc),
        keys: Vec::new(alloc),
        cells: Vec::new(alloc),
        left: Vec::new(alloc),
    };
    for plan in plans {
        add(alloc, &mut parts, plan)?;
    }
    Ok(parts)
}
