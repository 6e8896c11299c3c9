// What is wrong with a block's bytes.
ghost use Rattle.std.specs.Prelude.{◌≡◌, ℕ, ◌+◌, ◌<◌, ◌≤◌, ◌^◌, length, take, slice_index};
ghost use Rattle.chunk_elements.specs.Places.{cell_count};
ghost use Rattle.n5_blocks.specs.Faults.{mode_in, rank_in, header_len, size_in, sizes_in, size_fault, length_fault, cells_fault, block_fault};

use crate::chunk::BlockError;
use crate::metadata::N5Meta;
use chunk_elements::{Dtype, LARGEST_RANK, MOST_CHUNK_CELLS, count_cells, take_word};

/// The first fault of the bytes, if they have one.
pub(crate) fn block_fault(m: &N5Meta, bytes: &[u8]) -> Option<BlockError>
    ensures { result ≡ block_fault m.now bytes.now }
{
    let have = bytes.len() as u64;
    if have < 4 {
        return Some(BlockError::WrongLength { have, want: 4 });
    }
    let mode = mode_in(bytes);
    if mode != 0 {
        return Some(BlockError::WrongMode { have: mode });
    }
    let rank = rank_in(bytes);
    if rank as usize != m.block.items().len() {
        return Some(BlockError::WrongRank { have: rank });
    }
    cells_fault(m.dtype, m.block.items(), bytes)
}

// The first fault of sizes and elements, if there is one.
fn cells_fault(dtype: Dtype, block: &[u64], bytes: &[u8]) -> Option<BlockError>
    requires rank { length block.now ≤ 32 }
    requires volume { cell_count block.now ≤ 2 ^ 24 }
    ensures { result ≡ cells_fault dtype block.now bytes.now }
{
    let want = header_len(block.len());
    if bytes.len() < want {
        return Some(BlockError::WrongLength {
            have: bytes.len() as u64,
            want: want as u64,
        });
    }
    let buffer = sizes_in(block.len(), bytes);
    let sizes = &buffer[..block.len()];
    match size_fault(block, sizes) {
        Some(fault) => Some(fault),
        None => length_fault(dtype, sizes, bytes.len()),
    }
}

// The first size that is greater than the block's.
fn size_fault(block: &[u64], sizes: &[u64]) -> Option<BlockError>
    requires ranks { length sizes.now ≡ length block.now }
    requires rank { length block.now ≤ 32 }
    requires small { (k : ℕ) → k < length block.now → slice_index sizes.now k < 2 ^ 32 }
    ensures { result ≡ size_fault 0 block.now sizes.now }
{
    for dim in 0..block.len() {
        if block[dim] < sizes[dim] {
            return Some(BlockError::WrongSize {
                dim: dim as u32,
                have: sizes[dim] as u32,
            });
        }
    }
    None
}

// Another length than a header and the elements of these sizes have.
fn length_fault(dtype: Dtype, sizes: &[u64], have: usize) -> Option<BlockError>
    requires rank { length sizes.now ≤ 32 }
    requires volume { cell_count sizes.now ≤ 2 ^ 24 }
    ensures { result ≡ length_fault dtype sizes.now have }
{
    let want = header_len(sizes.len()) + cells_of(sizes) * dtype.byte_count();
    if have == want {
        None
    } else {
        Some(BlockError::WrongLength {
            have: have as u64,
            want: want as u64,
        })
    }
}

// The mode in a header.
fn mode_in(bytes: &[u8]) -> u16
    requires { 2 ≤ length bytes.now }
    ensures { result ≡ mode_in bytes.now }
{
    take_word(Dtype::U16, true, &bytes[..2]) as u16
}

// The number of dimensions in a header.
fn rank_in(bytes: &[u8]) -> u16
    requires { 4 ≤ length bytes.now }
    ensures { result ≡ rank_in bytes.now }
{
    take_word(Dtype::U16, true, &bytes[2..4]) as u16
}

/// How many bytes the header of a block of so many dimensions has.
pub(crate) fn header_len(rank: usize) -> usize
    requires { rank ≤ 32 }
    ensures { result ≡ header_len rank }
{
    4 + 4 * rank
}

/// The sizes in a header of so many dimensions, in the first places.
pub(crate) fn sizes_in(rank: usize, bytes: &[u8]) -> [u64; LARGEST_RANK]
    requires rank { rank ≤ 32 }
    requires full { header_len rank ≤ length bytes.now }
    ensures { take rank result ≡ sizes_in rank bytes.now }
{
    let mut sizes = [0; LARGEST_RANK];
    for dim in 0..rank {
        sizes[dim] = size_in(bytes, dim);
    }
    sizes
}

// The size of a dimension in a header.
fn size_in(bytes: &[u8], dim: usize) -> u64
    requires dim { dim < 32 }
    requires full { header_len (dim + 1) ≤ length bytes.now }
    ensures value { result ≡ size_in bytes.now dim }
    ensures small { result < 2 ^ 32 }
{
    let at = header_len(dim);
    take_word(Dtype::U32, true, &bytes[at..at + 4])
}

/// The number of cells.
pub(crate) fn cells_of(sizes: &[u64]) -> usize
    requires { cell_count sizes.now ≤ 2 ^ 24 }
    ensures { result ≡ cell_count sizes.now }
{
    let Some(count) = count_cells(sizes, MOST_CHUNK_CELLS) else {
        unreachable!();
    };
    count as usize
}
