// A view's cells parted into boxes, each of which lies in one chunk.
ghost use Rattle.std.specs.Prelude.{◌≡◌, ◌≢◌, ◌≤◌, ◌<◌, ◌+◌, ◌-◌, ◌^◌, ◌∷◌, ◌++◌, ◌/◌, ◌*◌, ◌==◌, [], ℕ, ℤ, pos, ◌+ℤ◌, ◌-ℤ◌, ◌*ℤ◌, ◌≤ℤ◌, ◌<ℤ◌, unsigned_abs, List, IsTrue, IfOk, OnOk, length, map, if◌then◌else◌};
ghost use Rattle.std.specs.List.{All, AllByRecursion, AllZip, list_all};
ghost use Rattle.index_transform.specs.Cells.{is_finite, cells_of};
ghost use Rattle.index_transform.specs.Maps.{is_map, is_plain};
ghost use Rattle.index_intervals.specs.Bounds.{is_ordered};
ghost use Rattle.index_transform.specs.Values.{map_value, value_at};
ghost use Rattle.index_transform.specs.Walks.{IsCell};
ghost use Rattle.chunk_grid.specs.Boxes.{AreBoxes, chunk_along, key_along, is_regular};
ghost use Rattle.chunk_grid.specs.BoxSteps.{IsNarrowed, IsCut, IsSplit, AreSplit, CanSplit, IsPlaceAlong, strided_number, goes_up, index_after, part_after, narrowed_box};
ghost use Rattle.chunk_grid.specs.Grid.{IsInShape};

use crate::grid::Grid;
use cells::{List, Sizes};
use index_intervals::Interval;
use index_transform::{OutMap, Transform, copied_interval, size_of};
use std::alloc::{AllocError, Global};

/// Cells of a view: the first numbers of their chunk's index, and their dimensions.
#[derive(Debug, Drop)]
pub(crate) struct Boxed {
    pub(crate) chunk: Sizes,
    pub(crate) dims: List<Interval>,
}

/// Indices along a dimension, and the number of the chunk in which an output that goes with them lies.
#[derive(Debug, Drop)]
pub(crate) struct Segment {
    pub(crate) number: u64,
    pub(crate) dim: Interval,
}

// The index so many steps from the lower end of a dimension, or from the upper one.
fn index_after(dim: &Interval, up: bool, steps: u64) -> i64
    requires finite { IsTrue (is_finite dim.now) }
    requires within { pos steps ≤ℤ (dim.now.hi -ℤ dim.now.lo) }
    ensures { result ≡ index_after dim.now up steps }
{
    let away = i128::from(steps);
    if up {
        (i128::from(dim.lo) + away) as i64
    } else {
        (i128::from(dim.hi) - away) as i64
    }
}

// So many indices from there on.
fn part_after(dim: &Interval, up: bool, done: u64, len: u64) -> Interval
    requires finite { IsTrue (is_finite dim.now) }
    requires some { 0 < len }
    requires within { (pos done +ℤ pos len) ≤ℤ ((dim.now.hi -ℤ dim.now.lo) +ℤ pos 1) }
    ensures { result ≡ part_after dim.now up done len }
{
    let first = index_after(dim, up, done);
    let last = index_after(dim, up, done + (len - 1));
    if up {
        Interval {
            lo: first,
            hi: last,
            ..*dim
        }
    } else {
        Interval {
            lo: last,
            hi: first,
            ..*dim
        }
    }
}

// An output that goes with an index.
fn output_at(offset: i64, stride: i64, x: i64) -> i128
    ensures { result ≡ offset +ℤ stride *ℤ x }
{
    i128::from(offset) + i128::from(stride) * i128::from(x)
}

fn goes_up(stride: i64) -> bool
    ensures { result ≡ goes_up stride }
{
    stride > 0
}

// The output at an index so many steps from the end at which it is least.
fn output_after(dim: &Interval, up: bool, offset: i64, stride: i64, steps: u64) -> u64
    requires finite { IsTrue (is_finite dim.now) }
    requires within { pos steps ≤ℤ (dim.now.hi -ℤ dim.now.lo) }
    requires values { (x : ℤ) → dim.now.lo ≤ℤ x → x ≤ℤ dim.now.hi → IsPlaceAlong (offset +ℤ stride *ℤ x) }
    ensures { result ≡ unsigned_abs (offset +ℤ stride *ℤ index_after dim.now up steps) }
{
    output_at(offset, stride, index_after(dim, up, steps)) as u64
}

// How many indices from one on lie in its chunk, at most `left`.
fn reach_from(output: u64, by: u64, size: u64, left: u64) -> u64
    requires some { 0 < left }
    requires by { 0 < by }
    requires positive { 0 < size }
    ensures some { 0 < result }
    ensures most { result ≤ left }
    ensures stays { (k : ℕ) → k < result → (output + by * k) / size ≡ output / size }
    ensures leaves { (k : ℕ) → result ≤ k → k < left → output / size < (output + by * k) / size }
{
    let more = (size - 1 - output % size) / by;
    if more < left { more + 1 } else { left }
}

// The indices of a dimension by the chunk in which an output lies that goes with them.
fn segments(
    alloc: Global,
    dim: &Interval,
    offset: i64,
    stride: i64,
    size: u64,
) -> Result<Vec<Segment>, AllocError>
    requires positive { 0 < size }
    requires moving { stride ≢ pos 0 }
    requires finite { IsTrue (is_finite dim.now) }
    requires filled { dim.now.lo ≤ℤ dim.now.hi }
    requires values { (x : ℤ) → dim.now.lo ≤ℤ x → x ≤ℤ dim.now.hi → IsPlaceAlong (offset +ℤ stride *ℤ x) }
    ensures { IfOk result (λ segments. IsCut (strided_number offset stride size) dim.now segments.items) }
{
    let mut segments = Vec::new(alloc);
    let count = size_of(dim);
    let up = goes_up(stride);
    let mut done = 0;
    while done < count {
        let output = output_after(dim, up, offset, stride, done);
        let len = reach_from(output, stride.unsigned_abs(), size, count - done);
        segments.push(Segment {
            number: output / size,
            dim: part_after(dim, up, done, len),
        })?;
        done += len;
    }
    Ok(segments)
}

fn copied_box(alloc: Global, cells: &Boxed) -> Result<Boxed, AllocError>
    ensures { IfOk result (λ b. b ≡ cells.now) }
{
    let chunk = Vec::from_slice(alloc, cells.chunk.items())?;
    let dims = Vec::from_slice(alloc, cells.dims.items())?;
    Ok(Boxed {
        chunk: Sizes::wrap(chunk),
        dims: List::wrap(dims),
    })
}

// The box with one number more.
fn numbered(cells: Boxed, number: u64) -> Result<Boxed, AllocError>
    ensures { IfOk result (λ b. b ≡ record { chunk = cells.chunk ++ number ∷ []; dims = cells.dims }) }
{
    let mut chunk = cells.chunk.into_inner();
    chunk.push(number)?;
    Ok(Boxed {
        chunk: Sizes::wrap(chunk),
        dims: cells.dims,
    })
}

// The cells of a box with an index in a segment.
fn narrowed(cells: Boxed, dim: usize, segment: &Segment) -> Result<Boxed, AllocError>
    requires { dim < length cells.dims }
    ensures { IfOk result (λ b. b ≡ narrowed_box cells dim segment.now) }
{
    let mut cells = cells;
    cells.dims.set(dim, segment.dim);
    numbered(cells, segment.number)
}

// The parts of a box by the segments of one of its dimensions. The last one takes its memory.
fn narrowed_each(
    alloc: Global,
    cells: Boxed,
    dim: usize,
    mut segments: Vec<Segment>,
) -> Result<Vec<Boxed>, AllocError>
    requires { dim < length cells.dims }
    ensures { IfOk result (λ parts. parts.items ≡ map (narrowed_box cells dim) segments.items) }
{
    let mut parts = Vec::new(alloc);
    let Some(last) = segments.pop() else {
        return Ok(parts);
    };
    for segment in &segments {
        parts.push(narrowed(copied_box(alloc, &cells)?, dim, segment)?)?;
    }
    parts.push(narrowed(cells, dim, &last)?)?;
    Ok(parts)
}

// The box whole, with the number of an output that is the same at all cells.
fn whole(alloc: Global, cells: Boxed, offset: i64, size: u64) -> Result<Vec<Boxed>, AllocError>
    requires positive { 0 < size }
    requires value { pos 0 ≤ℤ offset }
    ensures { IfOk result (λ parts. parts.items
        ≡ (record { chunk = cells.chunk ++ (unsigned_abs offset / size) ∷ []; dims = cells.dims }) ∷ []) }
{
    let mut parts = Vec::new(alloc);
    parts.push(numbered(cells, offset as u64 / size)?)?;
    Ok(parts)
}

// The parts of a box by the chunk in which an output lies.
fn parts_of(alloc: Global, cells: Boxed, map: &OutMap, size: u64) -> Result<Vec<Boxed>, AllocError>
    requires positive { 0 < size }
    requires regular { IsTrue (is_regular map.now) }
    requires plain { IsTrue (is_plain map.now) }
    requires split { CanSplit map.now cells }
    ensures { IfOk result (λ parts. IsSplit (chunk_along map.now size) cells parts.items) }
{
    match map {
        OutMap::Strided {
            offset,
            stride,
            dim,
        } => {
            let along = *dim as usize;
            let cut = segments(alloc, &cells.dims.items()[along], *offset, *stride, size)?;
            narrowed_each(alloc, cells, along, cut)
        }
        OutMap::Constant { offset } | OutMap::Indexed { offset, .. } => {
            whole(alloc, cells, *offset, size)
        }
    }
}

// The parts of one box after another.
fn parted(
    alloc: Global,
    boxes: Vec<Boxed>,
    map: &OutMap,
    size: u64,
) -> Result<Vec<Boxed>, AllocError>
    requires positive { 0 < size }
    requires regular { IsTrue (is_regular map.now) }
    requires plain { IsTrue (is_plain map.now) }
    requires split { AllByRecursion (CanSplit map.now) boxes.items }
    ensures { IfOk result (λ parts. AreSplit (chunk_along map.now size) boxes.items parts.items) }
{
    let mut all = Vec::new(alloc);
    for cells in boxes {
        let mut parts = parts_of(alloc, cells, map, size)?;
        all.append(&mut parts)?;
    }
    Ok(all)
}

// The dimensions copied.
fn copied(alloc: Global, dims: &[Interval]) -> Result<Vec<Interval>, AllocError>
    ensures value { IfOk result (λ copy. copy.items ≡ dims.now) }
    ensures ordered { OnOk result (IsTrue (list_all is_ordered dims.now)) }
{
    let mut copy = Vec::new(alloc);
    for dim in dims {
        copy.push(copied_interval(dim))?;
    }
    Ok(copy)
}

// The cells of some dimensions parted by the chunk's numbers along some outputs.
fn boxes_along(
    alloc: Global,
    dims: &[Interval],
    maps: &[OutMap],
    chunk: &[u64],
) -> Result<Vec<Boxed>, AllocError>
    requires same { length chunk.now ≡ length maps.now }
    requires positive { All (λ size. 0 < size) chunk.now }
    requires regular { IsTrue (list_all is_regular maps.now) }
    requires plain { IsTrue (list_all is_plain maps.now) }
    requires from { IsTrue (list_all (is_map dims.now) maps.now) }
    requires finite { IsTrue (list_all is_finite dims.now) }
    requires some { cells_of dims.now ≢ [] }
    requires values { (cell : List ℤ) → IsCell dims.now cell
        → AllByRecursion (λ m. IsPlaceAlong (map_value [] cell m)) maps.now }
    ensures boxes { IfOk result (λ boxes. AreBoxes (key_along maps.now chunk.now) dims.now boxes.items) }
    ensures within { IfOk result (λ boxes. All (λ b. AllZip IsNarrowed dims.now b.dims) boxes.items) }
{
    let mut boxes = Vec::new(alloc);
    boxes.push(Boxed {
        chunk: Sizes::wrap(Vec::new(alloc)),
        dims: List::wrap(copied(alloc, dims)?),
    })?;
    for j in 0..maps.len() {
        boxes = parted(alloc, boxes, &maps[j], chunk[j])?;
    }
    Ok(boxes)
}

/// The cells of a view parted by the chunk in which each lies: boxes in lexical order of the chunks.
pub(crate) fn boxes_of(alloc: Global, t: &Transform, grid: &Grid) -> Result<Vec<Boxed>, AllocError>
    requires regular { IsTrue (list_all is_regular t.now.maps) }
    requires finite { IsTrue (list_all is_finite t.now.domain.dims) }
    requires some { cells_of t.now.domain.dims ≢ [] }
    requires inside { All (λ cell. IsInShape grid.now.shape (value_at t.now cell)) (cells_of t.now.domain.dims) }
    ensures boxes { IfOk result (λ boxes. AreBoxes
        (key_along t.now.maps grid.now.chunk) t.now.domain.dims boxes.items) }
    ensures within { IfOk result (λ boxes. All (λ b. AllZip IsNarrowed t.now.domain.dims b.dims) boxes.items) }
{
    boxes_along(alloc, t.domain().dims.items(), t.maps(), grid.chunk())
}
