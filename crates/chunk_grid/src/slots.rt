// Runs in a slot for each chunk of a grid, by the chunk's number.
ghost use Rattle.std.specs.Prelude.{◌≡◌, ◌≤◌, ◌<◌, ◌+◌, ◌*◌, ◌^◌, ℕ, None, Option, IfOk, OnOk, IfSome, length, map, replicate, slice_index_or};
ghost use Rattle.cells.specs.Places.{cell_count, c_index};
ghost use Rattle.chunk_grid.specs.Cuts.{IsUpTo};
ghost use Rattle.strided_runs.specs.Growing.{Grown};
ghost use Rattle.chunk_grid.specs.Slots.{AreUpTo, together, products, slot_at, put_at, put_all, pieces_from};

use crate::piece::RunPiece;
use cells::{List, MOST_CELLS, Order, Sizes, count_cells, index_of};
use std::alloc::{AllocError, Global};
use strided_runs::Growing;

/// The number of a cell's chunk among all chunks, in C order, and the cell's place in the chunk; or the parts of both that
/// come from some outputs.
#[derive(Clone, Copy, Debug, PartialEq, Eq)]
pub(crate) struct Located {
    pub(crate) number: u32,
    pub(crate) place: u32,
}

// So many slots without a run.
fn empty_slots(alloc: Global, count: usize) -> Result<Vec<Option<Growing>>, AllocError>
    ensures { IfOk result (λ slots. slots.items ≡ replicate count None) }
{
    let mut slots = Vec::new(alloc);
    for _ in 0..count {
        slots.push(None)?;
    }
    Ok(slots)
}

// Puts a pair behind those of its slot.
fn put(
    alloc: Global,
    slots: &mut [Option<Growing>],
    view: u32,
    cell: Located,
) -> Result<(), AllocError>
    requires within { cell.number < length slots.old }
    requires before { IfSome (slot_at slots.old cell.number) (IsUpTo view) }
    requires small { view < 4194304 }
    ensures { OnOk result (slots.new ≡ put_at slots.old view cell) }
{
    match &mut slots[cell.number as usize] {
        Some(growing) => growing.push(view, cell.place),
        empty => {
            *empty = Some(Growing::new(alloc, view, cell.place));
            Ok(())
        }
    }
}

fn together(a: Located, b: Located) -> Located
    requires numbers { a.number + b.number < 2 ^ 32 }
    requires places { a.place + b.place < 2 ^ 32 }
    ensures { result ≡ together a b }
{
    Located {
        number: a.number + b.number,
        place: a.place + b.place,
    }
}

// Puts the pairs of a row's cells behind those of their slots: each cell together with the head.
fn put_row(
    alloc: Global,
    slots: &mut [Option<Growing>],
    head: Located,
    row: &[Located],
    view: u32,
) -> Result<(), AllocError>
    requires numbers { (j : ℕ) (d : Located) → j < length row.now
        → head.number + (slice_index_or row.now j d).number < length slots.old }
    requires places { (j : ℕ) (d : Located) → j < length row.now
        → head.place + (slice_index_or row.now j d).place < 2 ^ 32 }
    requires few { length slots.old ≤ 4194304 }
    requires small { view + length row.now ≤ 4194304 }
    requires before { AreUpTo view slots.old }
    ensures value { OnOk result (slots.new ≡ put_all slots.old view (map (together head) row.now)) }
    ensures before { OnOk result (AreUpTo (view + length row.now) slots.new) }
{
    for (j, cell) in row.iter().enumerate() {
        put(alloc, slots, view + j as u32, together(head, *cell))?;
    }
    Ok(())
}

// Puts the pairs of all cells: each head with the whole row.
fn put_rows(
    alloc: Global,
    slots: &mut [Option<Growing>],
    heads: &[Located],
    row: &[Located],
) -> Result<(), AllocError>
    requires numbers { (i j : ℕ) (c d : Located) → i < length heads.now → j < length row.now
        → (slice_index_or heads.now i c).number + (slice_index_or row.now j d).number < length slots.old }
    requires places { (i j : ℕ) (c d : Located) → i < length heads.now → j < length row.now
        → (slice_index_or heads.now i c).place + (slice_index_or row.now j d).place < 2 ^ 32 }
    requires few { length slots.old ≤ 4194304 }
    requires small { length heads.now * length row.now ≤ 4194304 }
    requires empty { AreUpTo 0 slots.old }
    ensures { OnOk result (slots.new ≡ put_all slots.old 0 (products heads.now row.now)) }
{
    let mut view = 0;
    for head in heads {
        put_row(alloc, slots, *head, row, view)?;
        view += row.len() as u32;
    }
    Ok(())
}

// The chunk index of a number.
fn chunk_at(alloc: Global, counts: &[u64], number: usize) -> Result<Sizes, AllocError>
    requires { number < cell_count counts.now }
    ensures { IfOk result (λ chunk. chunk ≡ c_index counts.now number) }
{
    let mut chunk = Vec::from_elem(alloc, 0, counts.len())?;
    index_of(counts, Order::C, number, &mut chunk);
    Ok(Sizes::wrap(chunk))
}

// The pieces of the slots that have runs.
fn pieces_of_slots(
    alloc: Global,
    counts: &[u64],
    slots: Vec<Option<Growing>>,
) -> Result<List<RunPiece>, AllocError>
    requires { length slots.items ≤ cell_count counts.now }
    ensures { IfOk result (λ pieces. pieces ≡ pieces_from counts.now 0 slots.items) }
{
    let mut pieces = Vec::new(alloc);
    let mut number = 0;
    for slot in slots {
        if let Some(growing) = slot {
            let chunk = chunk_at(alloc, counts, number)?;
            let runs = growing.into_runs()?;
            pieces.push(RunPiece { chunk, runs })?;
        }
        number += 1;
    }
    Ok(List::wrap(pieces))
}

// How many chunks there are.
fn count_of(counts: &[u64]) -> usize
    requires { cell_count counts.now ≤ 4194304 }
    ensures { result ≡ cell_count counts.now }
{
    match count_cells(counts, MOST_CELLS) {
        Some(count) => count as usize,
        None => 0,
    }
}

/// The pieces of cells that are each a head together with a cell of the row, in this order.
pub(crate) fn pieces_of_products(
    alloc: Global,
    counts: &[u64],
    heads: &[Located],
    row: &[Located],
) -> Result<List<RunPiece>, AllocError>
    requires numbers { (i j : ℕ) (c d : Located) → i < length heads.now → j < length row.now
        → (slice_index_or heads.now i c).number + (slice_index_or row.now j d).number < cell_count counts.now }
    requires places { (i j : ℕ) (c d : Located) → i < length heads.now → j < length row.now
        → (slice_index_or heads.now i c).place + (slice_index_or row.now j d).place < 2 ^ 32 }
    requires few { cell_count counts.now ≤ 4194304 }
    requires small { length heads.now * length row.now ≤ 4194304 }
    ensures { IfOk result (λ pieces. pieces ≡ pieces_from counts.now 0
        (put_all (replicate (cell_count counts.now) None) 0 (products heads.now row.now))) }
{
    let mut slots = empty_slots(alloc, count_of(counts))?;
    put_rows(alloc, slots.as_mut_slice(), heads, row)?;
    pieces_of_slots(alloc, counts, slots)
}
