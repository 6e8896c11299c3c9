// Dimensions of one cell are left out before a block is walked, so that rows are as long as they can be.
ghost use Rattle.std.specs.Prelude.{◌≡◌, IfOk, length, reverse};
ghost use Rattle.chunk_elements.specs.Rows.{is_single, of_long};

use std::alloc::{AllocError, Global};

/// Of numbers that a block's dimensions have, those of the dimensions that aren't one stored cell.
pub(crate) fn of_long(
    alloc: Global,
    numbers: &[u64],
    block: &[u64],
    sizes: &[u64],
) -> Result<Vec<u64>, AllocError>
    requires block { length block.now ≡ length numbers.now }
    requires sizes { length sizes.now ≡ length numbers.now }
    ensures { IfOk result (λ v. v.items ≡ of_long numbers.now block.now sizes.now) }
{
    let mut kept = Vec::new(alloc);
    for k in 0..numbers.len() {
        if !is_single(block[k], sizes[k]) {
            kept.push(numbers[k])?;
        }
    }
    Ok(kept)
}

// Whether a dimension is one cell, which is stored.
fn is_single(most: u64, size: u64) -> bool
    ensures { result ≡ is_single most size }
{
    most == 1 && size == 1
}

/// The numbers from the last to the first.
pub(crate) fn backwards(alloc: Global, numbers: &[u64]) -> Result<Vec<u64>, AllocError>
    ensures { IfOk result (λ v. v.items ≡ reverse numbers.now) }
{
    numbers.iter().rev().copied().collect(alloc)
}
