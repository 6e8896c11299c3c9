// The items of a block, row by row.
ghost use Rattle.std.specs.Prelude.{◌≡◌, ◌≤◌, ◌<◌, ◌+◌, ◌*◌, ◌^◌, ◌∷◌, [], length, replicate};
ghost use Rattle.cells.specs.Bytes.{byte_count};
ghost use Rattle.cells.specs.Places.{cell_count};
ghost use Rattle.chunk_elements.specs.Blocks.{AreWithin};
ghost use Rattle.chunk_elements.specs.Rows.{items_of, words_of_rows};

use crate::count::cells_of;
use crate::moving::{Row, move_row};
use crate::plane::{Plane, move_plane};
use cells::Dtype;

/// What elements are: numbers of a dtype, the highest byte first where `big`.
#[derive(Clone, Copy)]
pub(crate) struct Kind {
    pub(crate) dtype: Dtype,
    pub(crate) big: bool,
}

/// Where a block's elements begin: at the byte `from`; a step of the first index leads `stride` bytes further.
#[derive(Clone, Copy)]
pub(crate) struct Step {
    pub(crate) stride: usize,
    pub(crate) from: usize,
}

/// Writes the items of a block's cells, the last index fastest, of which cells of these sizes are stored, over zeros.
pub(crate) fn take_rows(
    kind: Kind,
    block: &[u64],
    sizes: &[u64],
    step: Step,
    elements: &[u8],
    out: &mut [u8],
)
    requires within { AreWithin block.now sizes.now }
    requires cells { 0 < cell_count block.now }
    requires volume { cell_count block.now ≤ 2 ^ 24 }
    requires room { step.from + step.stride * cell_count sizes.now + byte_count kind.dtype
        ≤ length elements.now + step.stride }
    requires stride { step.stride * cell_count block.now ≤ 2 ^ 27 }
    requires small { length elements.now ≤ 2 ^ 27 }
    requires zeros { out.old ≡ replicate (cell_count block.now * byte_count kind.dtype) 0 }
    ensures { out.new
        ≡ items_of kind.dtype (words_of_rows kind.dtype kind.big block.now sizes.now step.stride step.from
        elements.now) }
{
    let [size, sizes_behind @ ..] = sizes else {
        take_one(kind, step.from, elements, out);
        return;
    };
    let [most, block_behind @ ..] = block else {
        unreachable!();
    };
    if sizes_behind.is_empty() {
        take_last(kind, *most, *size, step, elements, out);
        return;
    }
    if sizes_behind.len() == 1 {
        take_plane(kind, block, sizes, step, elements, out);
        return;
    }
    let part = cells_of(block_behind) * kind.dtype.byte_count();
    for i in 0..*size as usize {
        let next = Step {
            stride: step.stride * *size as usize,
            from: step.from + i * step.stride,
        };
        take_rows(
            kind,
            block_behind,
            sizes_behind,
            next,
            elements,
            &mut out[i * part..i * part + part],
        );
    }
}

// Writes the items of the last two dimensions' cells.
fn take_plane(kind: Kind, block: &[u64], sizes: &[u64], step: Step, elements: &[u8], out: &mut [u8])
    requires rank { length sizes.now ≡ 2 }
    requires within { AreWithin block.now sizes.now }
    requires cells { 0 < cell_count block.now }
    requires volume { cell_count block.now ≤ 2 ^ 24 }
    requires room { step.from + step.stride * cell_count sizes.now + byte_count kind.dtype
        ≤ length elements.now + step.stride }
    requires stride { step.stride * cell_count block.now ≤ 2 ^ 27 }
    requires small { length elements.now ≤ 2 ^ 27 }
    requires zeros { out.old ≡ replicate (cell_count block.now * byte_count kind.dtype) 0 }
    ensures { out.new
        ≡ items_of kind.dtype (words_of_rows kind.dtype kind.big block.now sizes.now step.stride step.from
        elements.now) }
{
    let plane = Plane {
        rows: sizes[0] as usize,
        columns: sizes[1] as usize,
        width: block[1] as usize * kind.dtype.byte_count(),
        step: step.stride,
        stride: step.stride * sizes[0] as usize,
        from: step.from,
    };
    move_plane(kind.dtype, kind.big, false, plane, elements, out);
}

// Writes one item.
fn take_one(kind: Kind, from: usize, elements: &[u8], out: &mut [u8])
    requires room { from + byte_count kind.dtype ≤ length elements.now }
    requires small { length elements.now ≤ 2 ^ 27 }
    requires full { length out.old ≡ byte_count kind.dtype }
    ensures { out.new ≡ items_of kind.dtype (words_of_rows kind.dtype kind.big [] [] 0 from elements.now) }
{
    let row = Row {
        count: 1,
        stride: 0,
        from,
    };
    move_row(kind.dtype, kind.big, false, row, elements, out);
}

// Writes the items of the last dimension's cells.
fn take_last(kind: Kind, most: u64, size: u64, step: Step, elements: &[u8], out: &mut [u8])
    requires fit { size ≤ most }
    requires volume { most ≤ 2 ^ 24 }
    requires room { step.from + step.stride * size + byte_count kind.dtype ≤ length elements.now + step.stride }
    requires stride { step.stride * size ≤ 2 ^ 27 }
    requires small { length elements.now ≤ 2 ^ 27 }
    requires zeros { out.old ≡ replicate (most * byte_count kind.dtype) 0 }
    ensures { out.new
        ≡ items_of kind.dtype (words_of_rows kind.dtype kind.big (most ∷ []) (size ∷ []) step.stride step.from
        elements.now) }
{
    let count = size as usize;
    let row = Row {
        count,
        stride: step.stride,
        from: step.from,
    };
    let stored = count * kind.dtype.byte_count();
    move_row(
        kind.dtype,
        kind.big,
        false,
        row,
        elements,
        &mut out[..stored],
    );
}
