// Whether a block of N5 may be written.
ghost use Rattle.std.specs.Prelude.{◌≡◌, ◌≤◌, ◌<◌, ◌*◌, ◌^◌, ℕ, List, IfOk, IsTrue, length, slice_index};
ghost use Rattle.cells.specs.Places.{IsInside, cell_count, c_place};

use cells::{Order, index_of, is_inside};
use std::alloc::{AllocError, Global};

/// Whether the block of this index has a cell inside the array.
pub(crate) fn is_reached(block: &[u64], dimensions: &[u64], chunk: &[u64]) -> bool
    requires { length block.now ≡ length dimensions.now }
    ensures { IsTrue result → (length chunk.now ≡ length dimensions.now) × ((k : ℕ) → k < length dimensions.now
        → slice_index chunk.now k * slice_index block.now k < slice_index dimensions.now k) }
{
    if chunk.len() != dimensions.len() {
        return false;
    }
    for k in 0..dimensions.len() {
        match chunk[k].checked_mul(block[k]) {
            Some(start) => {
                if dimensions[k] <= start {
                    return false;
                }
            }
            None => return false,
        }
    }
    true
}

/// Whether each cell of a block outside these sizes has the word 0.
pub(crate) fn is_zero_outside(
    alloc: Global,
    block: &[u64],
    sizes: &[u64],
    words: &[u64],
) -> Result<bool, AllocError>
    requires { length words.now ≡ cell_count block.now }
    ensures { IfOk result (λ b. IsTrue b → (cell : List ℕ) → IsInside block.now cell → ¬ IsInside sizes.now cell
        → slice_index words.now (c_place block.now cell) ≡ 0) }
{
    let mut index = vec![in alloc; 0u64; block.len()]?;
    Ok(are_zero_outside(block, sizes, words, index.as_mut_slice()))
}

fn are_zero_outside(block: &[u64], sizes: &[u64], words: &[u64], index: &mut [u64]) -> bool
    requires count { length words.now ≡ cell_count block.now }
    requires room { length index.old ≡ length block.now }
    ensures { IsTrue result → (cell : List ℕ) → IsInside block.now cell → ¬ IsInside sizes.now cell
        → slice_index words.now (c_place block.now cell) ≡ 0 }
{
    for place in 0..words.len() {
        index_of(block, Order::C, place, index);
        if words[place] != 0 && !is_inside(sizes, index) {
            return false;
        }
    }
    true
}
