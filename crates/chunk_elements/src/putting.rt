// The elements of a block, row by row.
ghost use Rattle.std.specs.Prelude.{◌≡◌, ◌≤◌, ◌<◌, ◌+◌, ◌*◌, ◌^◌, ◌∷◌, [], length};
ghost use Rattle.cells.specs.Bytes.{byte_count};
ghost use Rattle.cells.specs.Places.{cell_count};
ghost use Rattle.chunk_elements.specs.Blocks.{AreWithin};
ghost use Rattle.chunk_elements.specs.Rows.{moved_rows};

use crate::count::cells_of;
use crate::moving::{Row, move_row};
use crate::plane::{Plane, move_plane};
use crate::taking::{Kind, Step};

/// Writes the elements of cells of these sizes, the last index fastest, of items of a block in F order.
pub(crate) fn put_rows(
    kind: Kind,
    block: &[u64],
    sizes: &[u64],
    step: Step,
    items: &[u8],
    out: &mut [u8],
)
    requires within { AreWithin block.now sizes.now }
    requires cells { 0 < cell_count block.now }
    requires volume { cell_count block.now ≤ 2 ^ 24 }
    requires room { step.from + step.stride * cell_count block.now + byte_count kind.dtype
        ≤ length items.now + step.stride }
    requires stride { step.stride * cell_count block.now ≤ 2 ^ 27 }
    requires small { length items.now ≤ 2 ^ 27 }
    requires full { length out.old ≡ cell_count sizes.now * byte_count kind.dtype }
    ensures { out.new ≡ moved_rows kind.dtype kind.big block.now sizes.now step.stride step.from items.now }
{
    let [size, sizes_behind @ ..] = sizes else {
        put_one(kind, step.from, items, out);
        return;
    };
    let [most, block_behind @ ..] = block else {
        unreachable!();
    };
    if sizes_behind.is_empty() {
        put_last(kind, *most, *size, step, items, out);
        return;
    }
    if sizes_behind.len() == 1 {
        put_plane(kind, block, sizes, step, items, out);
        return;
    }
    let part = cells_of(sizes_behind) * kind.dtype.byte_count();
    for i in 0..*size as usize {
        let next = Step {
            stride: step.stride * *most as usize,
            from: step.from + i * step.stride,
        };
        put_rows(
            kind,
            block_behind,
            sizes_behind,
            next,
            items,
            &mut out[i * part..i * part + part],
        );
    }
}

// Writes the elements of the last two dimensions' cells.
fn put_plane(kind: Kind, block: &[u64], sizes: &[u64], step: Step, items: &[u8], out: &mut [u8])
    requires rank { length sizes.now ≡ 2 }
    requires within { AreWithin block.now sizes.now }
    requires cells { 0 < cell_count block.now }
    requires volume { cell_count block.now ≤ 2 ^ 24 }
    requires room { step.from + step.stride * cell_count block.now + byte_count kind.dtype
        ≤ length items.now + step.stride }
    requires stride { step.stride * cell_count block.now ≤ 2 ^ 27 }
    requires small { length items.now ≤ 2 ^ 27 }
    requires full { length out.old ≡ cell_count sizes.now * byte_count kind.dtype }
    ensures { out.new ≡ moved_rows kind.dtype kind.big block.now sizes.now step.stride step.from items.now }
{
    let plane = Plane {
        rows: sizes[0] as usize,
        columns: sizes[1] as usize,
        width: sizes[1] as usize * kind.dtype.byte_count(),
        step: step.stride,
        stride: step.stride * block[0] as usize,
        from: step.from,
    };
    move_plane(kind.dtype, false, kind.big, plane, items, out);
}

// Writes one element.
fn put_one(kind: Kind, from: usize, items: &[u8], out: &mut [u8])
    requires room { from + byte_count kind.dtype ≤ length items.now }
    requires small { length items.now ≤ 2 ^ 27 }
    requires full { length out.old ≡ byte_count kind.dtype }
    ensures { out.new ≡ moved_rows kind.dtype kind.big [] [] 0 from items.now }
{
    let row = Row {
        count: 1,
        stride: 0,
        from,
    };
    move_row(kind.dtype, false, kind.big, row, items, out);
}

// Writes the elements of the last dimension's cells.
fn put_last(kind: Kind, most: u64, size: u64, step: Step, items: &[u8], out: &mut [u8])
    requires fit { size ≤ most }
    requires room { step.from + step.stride * most + byte_count kind.dtype ≤ length items.now + step.stride }
    requires stride { step.stride * most ≤ 2 ^ 27 }
    requires small { length items.now ≤ 2 ^ 27 }
    requires full { length out.old ≡ size * byte_count kind.dtype }
    ensures { out.new ≡ moved_rows kind.dtype kind.big (most ∷ []) (size ∷ []) step.stride step.from items.now }
{
    let row = Row {
        count: size as usize,
        stride: step.stride,
        from: step.from,
    };
    move_row(kind.dtype, false, kind.big, row, items, out);
}
