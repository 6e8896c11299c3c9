// Elements of rows, moved by strips of columns: of each row so many, then the next ones of each, since elements that stand side by side belong to
// rows that follow one another. Each arm has loops of its own, in which the dtype and both orders are known when the program is built.
ghost use Rattle.std.specs.Prelude.{◌≡◌, ◌≤◌, ◌<◌, ◌+◌, ◌*◌, ◌^◌, ℕ, length};
ghost use Rattle.cells.specs.Bytes.{byte_count};
ghost use Rattle.chunk_elements.specs.Planes.{over_row, over_rows};

use crate::moving::{Row, move_each};
use cells::Dtype;

/// So many rows of `width` bytes, into each of which so many elements go: those of the first row begin at the byte `from`, those of each further
/// row `step` bytes behind, and each further element of a row `stride` bytes behind the one before it.
#[derive(Clone, Copy)]
pub(crate) struct Plane {
    pub(crate) rows: usize,
    pub(crate) columns: usize,
    pub(crate) width: usize,
    pub(crate) step: usize,
    pub(crate) stride: usize,
    pub(crate) from: usize,
}

// What elements are, and whether the highest byte of one comes first: where it stands, and where it goes.
#[derive(Clone, Copy)]
struct Way {
    dtype: Dtype,
    big: bool,
    to: bool,
}

// The elements of each row behind the first `done`, so many.
#[derive(Clone, Copy)]
struct Strip {
    done: usize,
    count: usize,
}

// How many columns a strip has: few enough for what one row fetched to be at hand for the next, and enough for a row to be written in long runs.
const STRIP: usize = 256;

/// Moves the elements of rows over the front of each. `big` and `to` tell whether the highest byte of an element comes first: where it
/// stands, and where it goes.
pub(crate) fn move_plane(
    dtype: Dtype,
    big: bool,
    to: bool,
    plane: Plane,
    elements: &[u8],
    out: &mut [u8],
)
    requires fit { plane.columns * byte_count dtype ≤ plane.width }
    requires room { (i : ℕ) → i < plane.rows → plane.from + i * plane.step + plane.stride * plane.columns
        + byte_count dtype ≤ length elements.now + plane.stride }
    requires stride { plane.stride * plane.columns ≤ 2 ^ 27 }
    requires step { plane.step * plane.rows ≤ 2 ^ 27 }
    requires begin { plane.from ≤ 2 ^ 28 }
    requires small { length elements.now ≤ 2 ^ 27 }
    requires full { plane.rows * plane.width ≤ length out.old }
    requires few { length out.old ≤ 2 ^ 27 }
    ensures { out.new ≡ over_rows dtype big to plane.rows plane.width 0 plane.columns plane.step plane.stride plane.from
        elements.now out.old }
{
    match dtype {
        Dtype::I8 => plane_from(Dtype::I8, big, to, plane, elements, out),
        Dtype::U8 => plane_from(Dtype::U8, big, to, plane, elements, out),
        Dtype::I16 => plane_from(Dtype::I16, big, to, plane, elements, out),
        Dtype::U16 => plane_from(Dtype::U16, big, to, plane, elements, out),
        Dtype::I32 => plane_from(Dtype::I32, big, to, plane, elements, out),
        Dtype::U32 => plane_from(Dtype::U32, big, to, plane, elements, out),
        Dtype::I64 => plane_from(Dtype::I64, big, to, plane, elements, out),
        Dtype::U64 => plane_from(Dtype::U64, big, to, plane, elements, out),
    }
}

#[inline(always)]
fn plane_from(dtype: Dtype, big: bool, to: bool, plane: Plane, elements: &[u8], out: &mut [u8])
    requires fit { plane.columns * byte_count dtype ≤ plane.width }
    requires room { (i : ℕ) → i < plane.rows → plane.from + i * plane.step + plane.stride * plane.columns
        + byte_count dtype ≤ length elements.now + plane.stride }
    requires stride { plane.stride * plane.columns ≤ 2 ^ 27 }
    requires step { plane.step * plane.rows ≤ 2 ^ 27 }
    requires begin { plane.from ≤ 2 ^ 28 }
    requires small { length elements.now ≤ 2 ^ 27 }
    requires full { plane.rows * plane.width ≤ length out.old }
    requires few { length out.old ≤ 2 ^ 27 }
    ensures { out.new ≡ over_rows dtype big to plane.rows plane.width 0 plane.columns plane.step plane.stride plane.from
        elements.now out.old }
{
    if big {
        plane_to(dtype, true, to, plane, elements, out)
    } else {
        plane_to(dtype, false, to, plane, elements, out)
    }
}

#[inline(always)]
fn plane_to(dtype: Dtype, big: bool, to: bool, plane: Plane, elements: &[u8], out: &mut [u8])
    requires fit { plane.columns * byte_count dtype ≤ plane.width }
    requires room { (i : ℕ) → i < plane.rows → plane.from + i * plane.step + plane.stride * plane.columns
        + byte_count dtype ≤ length elements.now + plane.stride }
    requires stride { plane.stride * plane.columns ≤ 2 ^ 27 }
    requires step { plane.step * plane.rows ≤ 2 ^ 27 }
    requires begin { plane.from ≤ 2 ^ 28 }
    requires small { length elements.now ≤ 2 ^ 27 }
    requires full { plane.rows * plane.width ≤ length out.old }
    requires few { length out.old ≤ 2 ^ 27 }
    ensures { out.new ≡ over_rows dtype big to plane.rows plane.width 0 plane.columns plane.step plane.stride plane.from
        elements.now out.old }
{
    if to {
        let way = Way {
            dtype,
            big,
            to: true,
        };
        move_strips(way, plane, elements, out)
    } else {
        let way = Way {
            dtype,
            big,
            to: false,
        };
        move_strips(way, plane, elements, out)
    }
}

#[inline(always)]
fn move_strips(way: Way, plane: Plane, elements: &[u8], out: &mut [u8])
    requires fit { plane.columns * byte_count way.dtype ≤ plane.width }
    requires room { (i : ℕ) → i < plane.rows → plane.from + i * plane.step + plane.stride * plane.columns
        + byte_count way.dtype ≤ length elements.now + plane.stride }
    requires stride { plane.stride * plane.columns ≤ 2 ^ 27 }
    requires step { plane.step * plane.rows ≤ 2 ^ 27 }
    requires begin { plane.from ≤ 2 ^ 28 }
    requires small { length elements.now ≤ 2 ^ 27 }
    requires full { plane.rows * plane.width ≤ length out.old }
    requires few { length out.old ≤ 2 ^ 27 }
    ensures { out.new ≡ over_rows way.dtype way.big way.to plane.rows plane.width 0 plane.columns plane.step
        plane.stride plane.from elements.now out.old }
{
    let mut done = 0;
    while done < plane.columns {
        let count = STRIP.min(plane.columns - done);
        move_strip(way, plane, Strip { done, count }, elements, out);
        done += count;
    }
}

// Moves those of a strip.
#[inline(always)]
fn move_strip(way: Way, plane: Plane, strip: Strip, elements: &[u8], out: &mut [u8])
    requires within { strip.done + strip.count ≤ plane.columns }
    requires fit { plane.columns * byte_count way.dtype ≤ plane.width }
    requires room { (i : ℕ) → i < plane.rows → plane.from + i * plane.step + plane.stride * plane.columns
        + byte_count way.dtype ≤ length elements.now + plane.stride }
    requires stride { plane.stride * plane.columns ≤ 2 ^ 27 }
    requires step { plane.step * plane.rows ≤ 2 ^ 27 }
    requires begin { plane.from ≤ 2 ^ 28 }
    requires small { length elements.now ≤ 2 ^ 27 }
    requires full { plane.rows * plane.width ≤ length out.old }
    requires few { length out.old ≤ 2 ^ 27 }
    ensures { out.new ≡ over_rows way.dtype way.big way.to plane.rows plane.width strip.done strip.count plane.step
        plane.stride (plane.from + strip.done * plane.stride) elements.now out.old }
{
    let first = plane.from + strip.done * plane.stride;
    for i in 0..plane.rows {
        let row = Row {
            count: strip.count,
            stride: plane.stride,
            from: first + i * plane.step,
        };
        let at = i * plane.width;
        move_part(
            way,
            strip.done,
            row,
            elements,
            &mut out[at..at + plane.width],
        );
    }
}

// Moves so many elements into a row behind the first.
#[inline(always)]
fn move_part(way: Way, done: usize, row: Row, elements: &[u8], out: &mut [u8])
    requires room { row.from + row.stride * row.count + byte_count way.dtype ≤ length elements.now + row.stride }
    requires stride { row.stride * row.count ≤ 2 ^ 27 }
    requires small { length elements.now ≤ 2 ^ 27 }
    requires fit { (done + row.count) * byte_count way.dtype ≤ length out.old }
    requires few { length out.old ≤ 2 ^ 27 }
    ensures { out.new
        ≡ over_row way.dtype way.big way.to done row.count row.stride row.from elements.now out.old }
{
    let size = way.dtype.byte_count();
    let from = done * size;
    let upto = from + row.count * size;
    move_each(
        way.dtype,
        way.big,
        way.to,
        row,
        elements,
        &mut out[from..upto],
    );
}
