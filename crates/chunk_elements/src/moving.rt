// Elements of a row, moved from one byte order into another. Each arm has a loop of its own, in which the dtype and both orders are
// known when the program is built.
ghost use Rattle.std.specs.Prelude.{◌≡◌, ◌≤◌, ◌+◌, ◌*◌, ◌^◌, length};
ghost use Rattle.cells.specs.Bytes.{byte_count};
ghost use Rattle.chunk_elements.specs.Rows.{moved_row};

use crate::element::{put, take};
use cells::Dtype;

/// So many elements, of which the first begins at the byte `from`, and each further one `stride` bytes behind the one before it.
#[derive(Clone, Copy)]
pub(crate) struct Row {
    pub(crate) count: usize,
    pub(crate) stride: usize,
    pub(crate) from: usize,
}

/// Writes the elements of a row one after another. `big` and `to` tell whether the highest byte of an element comes first: where it stands,
/// and where it goes.
pub(crate) fn move_row(dtype: Dtype, big: bool, to: bool, row: Row, elements: &[u8], out: &mut [u8])
    requires room { row.from + row.stride * row.count + byte_count dtype ≤ length elements.now + row.stride }
    requires stride { row.stride * row.count ≤ 2 ^ 27 }
    requires small { length elements.now ≤ 2 ^ 27 }
    requires full { length out.old ≡ row.count * byte_count dtype }
    ensures { out.new ≡ moved_row dtype big to row.count row.stride row.from elements.now }
{
    match dtype {
        Dtype::I8 => move_from(Dtype::I8, big, to, row, elements, out),
        Dtype::U8 => move_from(Dtype::U8, big, to, row, elements, out),
        Dtype::I16 => move_from(Dtype::I16, big, to, row, elements, out),
        Dtype::U16 => move_from(Dtype::U16, big, to, row, elements, out),
        Dtype::I32 => move_from(Dtype::I32, big, to, row, elements, out),
        Dtype::U32 => move_from(Dtype::U32, big, to, row, elements, out),
        Dtype::I64 => move_from(Dtype::I64, big, to, row, elements, out),
        Dtype::U64 => move_from(Dtype::U64, big, to, row, elements, out),
    }
}

#[inline(always)]
fn move_from(dtype: Dtype, big: bool, to: bool, row: Row, elements: &[u8], out: &mut [u8])
    requires room { row.from + row.stride * row.count + byte_count dtype ≤ length elements.now + row.stride }
    requires stride { row.stride * row.count ≤ 2 ^ 27 }
    requires small { length elements.now ≤ 2 ^ 27 }
    requires full { length out.old ≡ row.count * byte_count dtype }
    ensures { out.new ≡ moved_row dtype big to row.count row.stride row.from elements.now }
{
    if big {
        move_to(dtype, true, to, row, elements, out)
    } else {
        move_to(dtype, false, to, row, elements, out)
    }
}

#[inline(always)]
fn move_to(dtype: Dtype, big: bool, to: bool, row: Row, elements: &[u8], out: &mut [u8])
    requires room { row.from + row.stride * row.count + byte_count dtype ≤ length elements.now + row.stride }
    requires stride { row.stride * row.count ≤ 2 ^ 27 }
    requires small { length elements.now ≤ 2 ^ 27 }
    requires full { length out.old ≡ row.count * byte_count dtype }
    ensures { out.new ≡ moved_row dtype big to row.count row.stride row.from elements.now }
{
    if to {
        move_by(dtype, big, true, row, elements, out)
    } else {
        move_by(dtype, big, false, row, elements, out)
    }
}

// Elements without gaps have a loop of their own, in which the step is known when the program is built.
#[inline(always)]
fn move_by(dtype: Dtype, big: bool, to: bool, row: Row, elements: &[u8], out: &mut [u8])
    requires room { row.from + row.stride * row.count + byte_count dtype ≤ length elements.now + row.stride }
    requires stride { row.stride * row.count ≤ 2 ^ 27 }
    requires small { length elements.now ≤ 2 ^ 27 }
    requires full { length out.old ≡ row.count * byte_count dtype }
    ensures { out.new ≡ moved_row dtype big to row.count row.stride row.from elements.now }
{
    if row.stride == dtype.byte_count() {
        let close = Row {
            count: row.count,
            stride: dtype.byte_count(),
            from: row.from,
        };
        move_each(dtype, big, to, close, elements, out)
    } else {
        move_each(dtype, big, to, row, elements, out)
    }
}

/// The same where the dtype and both orders are known when the program is built.
#[inline(always)]
pub(crate) fn move_each(
    dtype: Dtype,
    big: bool,
    to: bool,
    row: Row,
    elements: &[u8],
    out: &mut [u8],
)
    requires room { row.from + row.stride * row.count + byte_count dtype ≤ length elements.now + row.stride }
    requires stride { row.stride * row.count ≤ 2 ^ 27 }
    requires small { length elements.now ≤ 2 ^ 27 }
    requires full { length out.old ≡ row.count * byte_count dtype }
    ensures { out.new ≡ moved_row dtype big to row.count row.stride row.from elements.now }
{
    let size = dtype.byte_count();
    for i in 0..row.count {
        let at = row.from + i * row.stride;
        put(
            dtype,
            to,
            take(dtype, big, &elements[at..at + size]),
            &mut out[i * size..i * size + size],
        );
    }
}
