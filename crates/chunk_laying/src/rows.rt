// The rows of a chunk's cells, and how far each lies in the array's shape.
ghost use Rattle.std.specs.Prelude.{◌≡◌, ℕ, ◌<◌, ◌≤◌, ◌+◌, ◌*◌, ◌/◌, ◌^◌, length, nat_lt, take};
ghost use Rattle.cells.specs.Places.{cell_count};
ghost use Rattle.cells.specs.Shapes.{IsChunkShape};
ghost use Rattle.chunk_laying.specs.Laid.{IsChunkOf};
ghost use Rattle.chunk_laying.specs.Rows.{AreRows, is_place_inside};

use cells::{MOST_CHUNK_CELLS, count_cells};

/// A chunk's cells as rows: `count` of them with `len` cells each. A row begins at one index vector of the first `head`
/// dimensions. Where that one is inside, so are the first `inside` cells of the row, and no others.
#[derive(Clone, Copy)]
pub(crate) struct Rows {
    pub(crate) head: usize,
    pub(crate) count: usize,
    pub(crate) len: usize,
    pub(crate) inside: usize,
}

/// The longest rows of which a first part lies in the shape: they end with the last dimension along which the shape cuts the
/// chunk.
pub(crate) fn rows_of(shape: &[u64], chunk_shape: &[u64], chunk: &[u64]) -> Rows
    requires { IsChunkOf shape.now chunk_shape.now chunk.now }
    ensures { AreRows chunk_shape.now shape.now chunk.now result.head result.count result.len result.inside }
{
    let cells = cells_of(chunk_shape);
    let mut len = 1u64;
    for k in (0..chunk_shape.len()).rev() {
        let reach = reach_along(shape[k], chunk_shape[k], chunk[k]);
        if reach < chunk_shape[k] {
            return cut_rows(k, cells, len, chunk_shape[k], reach);
        }
        len *= chunk_shape[k];
    }
    Rows {
        head: 0,
        count: 1,
        len: cells as usize,
        inside: cells as usize,
    }
}

// How many cells of a chunk lie in the shape along a dimension.
fn reach_along(size: u64, n: u64, c: u64) -> u64
    requires { c * n < 2 ^ 64 }
    ensures most { result ≤ n }
    ensures cells { (i : ℕ) → i < n → nat_lt (c * n + i) size ≡ nat_lt i result }
{
    size.saturating_sub(c * n).min(n)
}

fn cut_rows(head: usize, cells: u64, below: u64, size: u64, reach: u64) -> Rows
    requires cells { cells ≤ 2 ^ 24 }
    requires row { size * below ≤ cells }
    requires positive { 0 < size * below }
    requires reach { reach ≤ size }
    ensures head { result.head ≡ head }
    ensures count { result.count ≡ cells / (size * below) }
    ensures len { result.len ≡ size * below }
    ensures inside { result.inside ≡ reach * below }
{
    let len = size * below;
    Rows {
        head,
        count: (cells / len) as usize,
        len: len as usize,
        inside: (reach * below) as usize,
    }
}

// How many cells a chunk has.
fn cells_of(chunk_shape: &[u64]) -> u64
    requires { IsChunkShape chunk_shape.now }
    ensures value { result ≡ cell_count chunk_shape.now }
    ensures most { result ≤ 2 ^ 24 }
{
    match count_cells(chunk_shape, MOST_CHUNK_CELLS) {
        Some(count) => count,
        None => unreachable!(),
    }
}

/// How many cells of a row lie in the shape: its first ones.
pub(crate) fn inside_of_row(
    shape: &[u64],
    chunk_shape: &[u64],
    chunk: &[u64],
    rows: Rows,
    row: usize,
) -> usize
    requires chunk { IsChunkOf shape.now chunk_shape.now chunk.now }
    requires rows { AreRows chunk_shape.now shape.now chunk.now rows.head rows.count rows.len rows.inside }
    requires row { row < rows.count }
    ensures most { result ≤ rows.len }
    ensures cells { (i : ℕ) → i < rows.len
        → is_place_inside chunk_shape.now shape.now chunk.now (row * rows.len + i) ≡ nat_lt i result }
{
    if is_head_inside(
        shape,
        chunk_shape,
        chunk,
        rows.head,
        rows.count as u64,
        row as u64,
    ) {
        rows.inside
    } else {
        0
    }
}

// Whether the first dimensions of a row are inside.
fn is_head_inside(
    shape: &[u64],
    chunk_shape: &[u64],
    chunk: &[u64],
    head: usize,
    count: u64,
    row: u64,
) -> bool
    requires chunk { IsChunkOf shape.now chunk_shape.now chunk.now }
    requires head { head ≤ length chunk_shape.now }
    requires count { count ≡ cell_count (take head chunk_shape.now) }
    requires row { row < count }
    ensures { result ≡ is_place_inside (take head chunk_shape.now) (take head shape.now) (take head chunk.now) row }
{
    let mut below = count;
    let mut rest = row;
    for k in 0..head {
        below /= chunk_shape[k];
        if shape[k] <= chunk[k] * chunk_shape[k] + rest / below {
            return false;
        }
        rest %= below;
    }
    true
}
