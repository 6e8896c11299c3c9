// Dense blocks and their elements one after another.
ghost use Rattle.std.specs.Prelude.{◌≡◌, ◌≤◌, ◌<◌, ◌+◌, ◌*◌, ◌^◌, ◌++◌, ℕ, All, IfOk, List, length, replicate, take};
ghost use Rattle.cells.specs.Bytes.{byte_count};
ghost use Rattle.cells.specs.Places.{cell_count};
ghost use Rattle.cells.specs.Dense.{IsDense};
ghost use Rattle.cells.specs.Items.{SpellsItems};
ghost use Rattle.cells.specs.Numbers.{IsWord};
ghost use Rattle.chunk_elements.specs.Blocks.{AddsBlock, AreStored, AreWithin};
ghost use Rattle.chunk_elements.specs.Rows.{elements_of_rows, items_of, moved_row, moved_rows, words_of_rows};
ghost use Rattle.chunk_elements.specs.Words.{AreSpelled, SpellsWords};

use crate::count::cells_of;
use crate::long::{backwards, of_long};
use crate::moving::{Row, move_row};
use crate::putting::put_rows;
use crate::taking::{Kind, Step, take_rows};
use cells::{Dense, Dtype, Sizes};
use std::alloc::{AllocError, Global};

/// The numbers of a shape that bytes spell one after another, in C order.
///
/// # Errors
/// An allocation failed.
pub fn dense_of(
    alloc: Global,
    dtype: Dtype,
    big: bool,
    shape: Sizes,
    bytes: &[u8],
) -> Result<Dense, AllocError>
    requires rank { length shape ≤ 32 }
    requires small { cell_count shape ≤ 2 ^ 24 }
    requires full { length bytes.now ≡ cell_count shape * byte_count dtype }
    ensures dtype { IfOk result (λ d. d.dtype ≡ dtype) }
    ensures shape { IfOk result (λ d. d.shape ≡ shape) }
    ensures words { IfOk result (λ d. AreSpelled dtype big (cell_count shape) bytes.now d.words) }
{
    let items = moved(alloc, dtype, big, false, bytes)?;
    Ok(Dense::from_bytes(dtype, shape, items))
}

/// The bytes that spell the numbers of a dense block one after another, in C order.
///
/// # Errors
/// An allocation failed.
pub fn bytes_of_dense(alloc: Global, big: bool, d: &Dense) -> Result<Vec<u8>, AllocError>
    ensures spells { IfOk result (λ bytes. SpellsWords d.now.dtype big bytes.items d.now.words) }
    ensures well_formed { IsDense d.now }
{
    moved(alloc, d.dtype(), false, big, d.bytes())
}

/// The numbers of a block of which the bytes store cells of these sizes, the first index fastest. A cell that isn't stored has 0.
///
/// # Errors
/// An allocation failed.
pub fn dense_of_block(
    alloc: Global,
    dtype: Dtype,
    big: bool,
    block: Sizes,
    sizes: &[u64],
    bytes: &[u8],
) -> Result<Dense, AllocError>
    requires rank { length block ≤ 32 }
    requires within { AreWithin block sizes.now }
    requires cells { 0 < cell_count block }
    requires volume { cell_count block ≤ 2 ^ 24 }
    requires full { length bytes.now ≡ cell_count sizes.now * byte_count dtype }
    ensures dtype { IfOk result (λ d. d.dtype ≡ dtype) }
    ensures shape { IfOk result (λ d. d.shape ≡ block) }
    ensures words { IfOk result (λ d. AreStored dtype big block sizes.now bytes.now d.words) }
{
    let items = taken(alloc, Kind { dtype, big }, block.items(), sizes, bytes)?;
    Ok(Dense::from_bytes(dtype, block, items))
}

/// The bytes with the elements of a dense block's cells of these sizes behind them, the first index fastest.
///
/// # Errors
/// An allocation failed; the bytes are gone then.
pub fn put_dense(
    alloc: Global,
    big: bool,
    d: &Dense,
    sizes: &[u64],
    bytes: Vec<u8>,
) -> Result<Vec<u8>, AllocError>
    requires within { AreWithin d.now.shape sizes.now }
    requires cells { 0 < cell_count d.now.shape }
    ensures { IfOk result (λ all. AddsBlock d.now.dtype big d.now.shape sizes.now d.now.words bytes.items all.items) }
{
    let most = backwards(alloc, d.shape())?;
    let stored = backwards(alloc, sizes)?;
    let kind = Kind {
        dtype: d.dtype(),
        big,
    };
    put_behind(
        alloc,
        kind,
        most.as_slice(),
        stored.as_slice(),
        d.bytes(),
        bytes,
    )
}

// The bytes with the elements of cells of these sizes behind them, the last index fastest, of items of a block in F order.
fn put_behind(
    alloc: Global,
    kind: Kind,
    block: &[u64],
    sizes: &[u64],
    items: &[u8],
    bytes: Vec<u8>,
) -> Result<Vec<u8>, AllocError>
    requires within { AreWithin block.now sizes.now }
    requires cells { 0 < cell_count block.now }
    requires volume { cell_count block.now ≤ 2 ^ 24 }
    requires full { length items.now ≡ cell_count block.now * byte_count kind.dtype }
    ensures { IfOk result (λ all. (words : List ℕ) → SpellsItems kind.dtype items.now words
        → All (IsWord kind.dtype) words
        → all.items ≡ bytes.items ++ elements_of_rows kind.dtype kind.big block.now sizes.now 1 0 words) }
{
    let most = of_long(alloc, block, block, sizes)?;
    let stored = of_long(alloc, sizes, block, sizes)?;
    let start = bytes.len();
    let room = cells_of(stored.as_slice()) * kind.dtype.byte_count();
    let mut all = grown(bytes, room)?;
    put_at(
        kind,
        most.as_slice(),
        stored.as_slice(),
        items,
        start,
        &mut all,
    );
    Ok(all)
}

// The bytes with so many zeros behind them.
fn grown(bytes: Vec<u8>, room: usize) -> Result<Vec<u8>, AllocError>
    requires { room ≤ 2 ^ 27 }
    ensures { IfOk result (λ all. all.items ≡ bytes.items ++ replicate room 0) }
{
    let mut all = bytes;
    all.resize(all.len() + room, 0)?;
    Ok(all)
}

// Writes the elements over the bytes from a place on.
fn put_at(kind: Kind, block: &[u64], sizes: &[u64], items: &[u8], start: usize, out: &mut [u8])
    requires within { AreWithin block.now sizes.now }
    requires cells { 0 < cell_count block.now }
    requires volume { cell_count block.now ≤ 2 ^ 24 }
    requires full { length items.now ≡ cell_count block.now * byte_count kind.dtype }
    requires room { length out.old ≡ start + cell_count sizes.now * byte_count kind.dtype }
    ensures { out.new
        ≡ take start out.old ++ moved_rows kind.dtype kind.big block.now sizes.now (byte_count kind.dtype) 0 items.now }
{
    let step = Step {
        stride: kind.dtype.byte_count(),
        from: 0,
    };
    put_rows(kind, block, sizes, step, items, &mut out[start..]);
}

// The items of a block.
fn taken(
    alloc: Global,
    kind: Kind,
    block: &[u64],
    sizes: &[u64],
    bytes: &[u8],
) -> Result<Vec<u8>, AllocError>
    requires within { AreWithin block.now sizes.now }
    requires cells { 0 < cell_count block.now }
    requires volume { cell_count block.now ≤ 2 ^ 24 }
    requires full { length bytes.now ≡ cell_count sizes.now * byte_count kind.dtype }
    ensures { IfOk result (λ items. items.items
        ≡ items_of kind.dtype (words_of_rows kind.dtype kind.big block.now sizes.now (byte_count kind.dtype) 0
        bytes.now)) }
{
    let most = of_long(alloc, block, block, sizes)?;
    let stored = of_long(alloc, sizes, block, sizes)?;
    let size = kind.dtype.byte_count();
    let mut items = vec![in alloc; 0; cells_of(block) * size]?;
    let step = Step {
        stride: size,
        from: 0,
    };
    take_rows(
        kind,
        most.as_slice(),
        stored.as_slice(),
        step,
        bytes,
        &mut items,
    );
    Ok(items)
}

// Elements one after another, moved from one byte order into another.
fn moved(
    alloc: Global,
    dtype: Dtype,
    big: bool,
    to: bool,
    elements: &[u8],
) -> Result<Vec<u8>, AllocError>
    requires full { (count : ℕ) × (count ≤ 2 ^ 24) × (length elements.now ≡ count * byte_count dtype) }
    ensures { IfOk result (λ out. (count : ℕ) → length elements.now ≡ count * byte_count dtype
        → out.items ≡ moved_row dtype big to count (byte_count dtype) 0 elements.now) }
{
    let mut out = vec![in alloc; 0; elements.len()]?;
    let size = dtype.byte_count();
    let row = Row {
        count: elements.len() / size,
        stride: size,
        from: 0,
    };
    move_row(dtype, big, to, row, elements, &mut out);
    Ok(out)
}
