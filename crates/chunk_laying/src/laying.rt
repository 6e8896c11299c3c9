// A chunk's words after a commit and after a resize.
ghost use Rattle.std.specs.Prelude.{◌≡◌, ℕ, ◌^◌, ◌≤◌, ◌<◌, List, Some, IfOk, length, option_map, slice_index, unwrap_or, if◌then◌else◌};
ghost use Rattle.std.specs.Option.{ForSome};
ghost use Rattle.cells.specs.Elements.{word_at};
ghost use Rattle.cells.specs.Numbers.{IsWord};
ghost use Rattle.cells.specs.Places.{IsInside, c_place, cell_count};
ghost use Rattle.rebase_writes.specs.Staged.{AreWords, staged_at};
ghost use Rattle.chunk_laying.specs.Laid.{IsChunkOf, laid_word, cut_word, word_under};
ghost use Rattle.chunk_laying.specs.Rows.{is_place_inside};

use crate::rows::{inside_of_row, rows_of};
use cells::{Dense, Dtype, Run};
use rebase_writes::Staged;
use std::alloc::{AllocError, Global};

/// The chunk's cells after a commit: in the array's shape the staged word, or the base's where none is staged, and past the
/// shape the fill. Without a base the fill stands where none is staged, as in a chunk that isn't stored; where the staged
/// words cover the chunk, no such cell is in the shape.
///
/// # Errors
///
/// `AllocError` where there is no memory.
pub fn lay(
    alloc: Global,
    shape: &[u64],
    chunk: &[u64],
    fill: u64,
    staged: &Staged,
    base: Option<&Dense>,
    dtype: Dtype,
    chunk_shape: &[u64],
) -> Result<Dense, AllocError>
    requires chunk { IsChunkOf shape.now chunk_shape.now chunk.now }
    requires rank { length chunk_shape.now ≤ 32 }
    requires fill { IsWord dtype fill }
    requires size { length staged.now ≡ cell_count chunk_shape.now }
    requires words { AreWords dtype staged.now }
    requires base_dtype { ForSome base (λ b. b.now.dtype ≡ dtype) }
    requires base_shape { ForSome base (λ b. b.now.shape ≡ chunk_shape.now) }
    ensures dtype { IfOk result (λ d. d.dtype ≡ dtype) }
    ensures shape { IfOk result (λ d. d.shape ≡ chunk_shape.now) }
    ensures words { IfOk result (λ d. (index : List ℕ) → IsInside chunk_shape.now index → word_at d index
        ≡ laid_word shape.now chunk_shape.now chunk.now fill staged.now (option_map (λ b. b.now) base.entry) index) }
{
    let mut cells = over(alloc, fill, staged, base, dtype, chunk_shape)?;
    fill_outside(shape, chunk_shape, chunk, fill, &mut cells);
    Ok(cells)
}

/// The same over a base that is used up: its cells are those of the chunk then. It takes no memory.
pub fn lay_in(
    shape: &[u64],
    chunk: &[u64],
    fill: u64,
    staged: &Staged,
    base: Dense,
    chunk_shape: &[u64],
) -> Dense
    requires chunk { IsChunkOf shape.now chunk_shape.now chunk.now }
    requires fill { IsWord base.dtype fill }
    requires size { length staged.now ≡ cell_count chunk_shape.now }
    requires words { AreWords base.dtype staged.now }
    requires base_shape { base.shape ≡ chunk_shape.now }
    ensures dtype { result.dtype ≡ base.dtype }
    ensures shape { result.shape ≡ chunk_shape.now }
    ensures words { (index : List ℕ) → IsInside chunk_shape.now index → word_at result index
        ≡ laid_word shape.now chunk_shape.now chunk.now fill staged.now (Some base) index }
{
    let mut cells = base;
    // A look at the shape, by which it is known how many words there are.
    let _ = cells.shape();
    staged.lay_over(&mut cells);
    fill_outside(shape, chunk_shape, chunk, fill, &mut cells);
    cells
}

/// The chunk's cells once its array has another shape: the base's word in the shape, and the fill past it.
///
/// # Errors
///
/// `AllocError` where there is no memory.
pub fn cut(
    alloc: Global,
    shape: &[u64],
    chunk: &[u64],
    fill: u64,
    base: &Dense,
) -> Result<Dense, AllocError>
    requires chunk { IsChunkOf shape.now base.now.shape chunk.now }
    requires fill { IsWord base.now.dtype fill }
    ensures dtype { IfOk result (λ d. d.dtype ≡ base.now.dtype) }
    ensures shape { IfOk result (λ d. d.shape ≡ base.now.shape) }
    ensures words { IfOk result (λ d. (index : List ℕ) → IsInside base.now.shape index
        → word_at d index ≡ cut_word shape.now chunk.now fill base.now index) }
{
    let mut cells = base.copy(alloc)?;
    fill_outside(shape, base.shape(), chunk, fill, &mut cells);
    Ok(cells)
}

// Staged words over the base's, and without a base over the fill.
fn over(
    alloc: Global,
    fill: u64,
    staged: &Staged,
    base: Option<&Dense>,
    dtype: Dtype,
    chunk_shape: &[u64],
) -> Result<Dense, AllocError>
    requires rank { length chunk_shape.now ≤ 32 }
    requires small { cell_count chunk_shape.now ≤ 2 ^ 24 }
    requires fill { IsWord dtype fill }
    requires size { length staged.now ≡ cell_count chunk_shape.now }
    requires words { AreWords dtype staged.now }
    requires base_dtype { ForSome base (λ b. b.now.dtype ≡ dtype) }
    requires base_shape { ForSome base (λ b. b.now.shape ≡ chunk_shape.now) }
    ensures dtype { IfOk result (λ d. d.dtype ≡ dtype) }
    ensures shape { IfOk result (λ d. d.shape ≡ chunk_shape.now) }
    ensures words { IfOk result (λ d. (index : List ℕ) → IsInside chunk_shape.now index → word_at d index
        ≡ unwrap_or (staged_at staged.now (c_place chunk_shape.now index))
        (word_under (option_map (λ b. b.now) base.entry) fill index)) }
{
    match base {
        Some(base) => over_base(alloc, staged, base, chunk_shape),
        None => over_fill(alloc, dtype, chunk_shape, fill, staged),
    }
}

fn over_base(
    alloc: Global,
    staged: &Staged,
    base: &Dense,
    chunk_shape: &[u64],
) -> Result<Dense, AllocError>
    requires size { length staged.now ≡ cell_count chunk_shape.now }
    requires words { AreWords base.now.dtype staged.now }
    requires shape { base.now.shape ≡ chunk_shape.now }
    ensures dtype { IfOk result (λ d. d.dtype ≡ base.now.dtype) }
    ensures shape { IfOk result (λ d. d.shape ≡ chunk_shape.now) }
    ensures cells { IfOk result (λ d. (place : ℕ) → place < cell_count chunk_shape.now
        → slice_index d.words place ≡ unwrap_or (staged_at staged.now place) (slice_index base.now.words place)) }
{
    // A look at the shape, by which it is known how many words there are.
    let _ = base.shape();
    staged.over(alloc, base)
}

// Staged words over a chunk of the fill.
fn over_fill(
    alloc: Global,
    dtype: Dtype,
    chunk_shape: &[u64],
    fill: u64,
    staged: &Staged,
) -> Result<Dense, AllocError>
    requires rank { length chunk_shape.now ≤ 32 }
    requires small { cell_count chunk_shape.now ≤ 2 ^ 24 }
    requires fill { IsWord dtype fill }
    requires size { length staged.now ≡ cell_count chunk_shape.now }
    requires words { AreWords dtype staged.now }
    ensures dtype { IfOk result (λ d. d.dtype ≡ dtype) }
    ensures shape { IfOk result (λ d. d.shape ≡ chunk_shape.now) }
    ensures cells { IfOk result (λ d. (place : ℕ) → place < cell_count chunk_shape.now
        → slice_index d.words place ≡ unwrap_or (staged_at staged.now place) fill) }
{
    let mut cells = Dense::filled(alloc, dtype, chunk_shape, fill)?;
    staged.lay_over(&mut cells);
    Ok(cells)
}

// Puts the fill at each place past the shape.
fn fill_outside(shape: &[u64], chunk_shape: &[u64], chunk: &[u64], fill: u64, cells: &mut Dense)
    requires chunk { IsChunkOf shape.now chunk_shape.now chunk.now }
    requires shape { cells.old.shape ≡ chunk_shape.now }
    requires fill { IsWord cells.old.dtype fill }
    ensures dtype { cells.new.dtype ≡ cells.old.dtype }
    ensures shape { cells.new.shape ≡ cells.old.shape }
    ensures words { (place : ℕ) → place < cell_count chunk_shape.now → slice_index cells.new.words place
        ≡ (if is_place_inside chunk_shape.now shape.now chunk.now place then slice_index cells.old.words place else
        fill) }
{
    // A look at the shape, by which it is known how many words there are.
    let _ = cells.shape();
    let rows = rows_of(shape, chunk_shape, chunk);
    for row in 0..rows.count {
        let from = row * rows.len;
        let inside = inside_of_row(shape, chunk_shape, chunk, rows, row);
        fill_run(cells, from + inside, from + rows.len, fill);
    }
}

// Puts the fill at each place of a run.
fn fill_run(cells: &mut Dense, from: usize, to: usize, fill: u64)
    requires from { from ≤ to }
    requires to { to ≤ length cells.old.words }
    requires fill { IsWord cells.old.dtype fill }
    ensures dtype { cells.new.dtype ≡ cells.old.dtype }
    ensures shape { cells.new.shape ≡ cells.old.shape }
    ensures size { length cells.new.words ≡ length cells.old.words }
    ensures filled { (place : ℕ) → from ≤ place → place < to → slice_index cells.new.words place ≡ fill }
    ensures before { (place : ℕ) → place < from
        → slice_index cells.new.words place ≡ slice_index cells.old.words place }
    ensures behind { (place : ℕ) → to ≤ place → slice_index cells.new.words place ≡ slice_index cells.old.words place }
{
    // A look at the cells, by which it is known how many there are.
    let _ = cells.count();
    let run = Run {
        view: 0,
        view_step: 0,
        chunk: from as u32,
        chunk_step: 1,
        len: (to - from) as u32,
    };
    cells.write_run(&run, &[fill]);
}
