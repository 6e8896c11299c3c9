// What is left of a stored chunk.
ghost use Rattle.std.specs.Prelude.{◌≡◌, Some, IfOk, length, option_map, true, false};
ghost use Rattle.std.specs.Option.{ForSome};
ghost use Rattle.cells.specs.Numbers.{IsWord};
ghost use Rattle.cells.specs.Places.{cell_count};
ghost use Rattle.chunk_forms.specs.Metadata.{is_local, shape_of, chunk_shape_of, dtype_of, fill_of};
ghost use Rattle.history.specs.Resizes.{reaches_into};
ghost use Rattle.rebase_writes.specs.Staged.{AreWords};
ghost use Rattle.chunk_laying.specs.Laid.{IsChunkOf, laid_word};
ghost use Rattle.chunk_plans.specs.Left.{IsLeftAs};

use cells::{Dense, List};
use chunk_forms::{Form, encode_form};
use chunk_laying::{lay, lay_in};
use rebase_writes::Staged;
use std::alloc::{AllocError, Global};

/// What is left of a stored chunk: its cells, and their bytes, or none where every cell has the fill.
#[derive(Drop)]
pub struct LeftOver {
    pub cells: Dense,
    pub bytes: Option<List<u8>>,
}

/// A chunk with the staged words over a base's. Without a base the fill stands where no word is staged; where the staged words cover the
/// chunk, no such cell is in the shape. The form has the array's present shape.
///
/// # Errors
/// Want of memory alone.
pub fn left_over(
    alloc: Global,
    form: &Form,
    chunk: &[u64],
    staged: &Staged,
    base: Option<&Dense>,
) -> Result<LeftOver, AllocError>
    requires stored { is_local form.now ≡ false }
    requires fill { IsWord (dtype_of form.now) (fill_of form.now) }
    requires chunk { IsChunkOf (shape_of form.now) (chunk_shape_of form.now) chunk.now }
    requires reached { reaches_into (chunk_shape_of form.now) (shape_of form.now) chunk.now ≡ true }
    requires size { length staged.now ≡ cell_count (chunk_shape_of form.now) }
    requires words { AreWords (dtype_of form.now) staged.now }
    requires base_dtype { ForSome base (λ b. b.now.dtype ≡ dtype_of form.now) }
    requires base_shape { ForSome base (λ b. b.now.shape ≡ chunk_shape_of form.now) }
    ensures { IfOk result (λ l. IsLeftAs form.now chunk.now staged.now
        (option_map (λ b. b.now) base.entry) l.cells l.bytes) }
{
    let cells = lay(
        alloc,
        form.shape(),
        chunk,
        form.fill(),
        staged,
        base,
        form.dtype(),
        form.chunk_shape(),
    )?;
    // A look at the cells, by which it is known how many there are.
    let _ = cells.count();
    let bytes = encode_form(alloc, form, chunk, form.fill(), &cells)?;
    Ok(LeftOver { cells, bytes })
}

/// The same over the cells of a base, which are used up.
///
/// # Errors
/// Want of memory alone.
pub(crate) fn left_in(
    alloc: Global,
    form: &Form,
    chunk: &[u64],
    staged: &Staged,
    base: Dense,
) -> Result<LeftOver, AllocError>
    requires stored { is_local form.now ≡ false }
    requires fill { IsWord (dtype_of form.now) (fill_of form.now) }
    requires chunk { IsChunkOf (shape_of form.now) (chunk_shape_of form.now) chunk.now }
    requires reached { reaches_into (chunk_shape_of form.now) (shape_of form.now) chunk.now ≡ true }
    requires size { length staged.now ≡ cell_count (chunk_shape_of form.now) }
    requires words { AreWords (dtype_of form.now) staged.now }
    requires base_dtype { base.dtype ≡ dtype_of form.now }
    requires base_shape { base.shape ≡ chunk_shape_of form.now }
    ensures { IfOk result (λ l. IsLeftAs form.now chunk.now staged.now (Some base) l.cells l.bytes) }
{
    let cells = lay_in(
        form.shape(),
        chunk,
        form.fill(),
        staged,
        base,
        form.chunk_shape(),
    );
    // A look at the cells, by which it is known how many there are.
    let _ = cells.count();
    let bytes = encode_form(alloc, form, chunk, form.fill(), &cells)?;
    Ok(LeftOver { cells, bytes })
}
