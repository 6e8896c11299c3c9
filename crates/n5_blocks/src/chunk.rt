ghost use Rattle.std.specs.Prelude.{◌≡◌, ◌≢◌, ◌↔◌, ℕ, ◌*◌, ◌≤◌, ◌<◌, ◌^◌, ◌++◌, IfOk, IfErr, OnOk, Some, None, true, length, slice_index};
ghost use Rattle.chunk_elements.specs.Numbers.{IsWord};
ghost use Rattle.chunk_elements.specs.Bytes.{word_bytes};
ghost use Rattle.n5_blocks.specs.Block.{AreWithin, IsReached, IsZeroOutside, SpellsBlock, WritesBlock, cut_sizes, header, word_at};
ghost use Rattle.n5_blocks.specs.Faults.{block_fault};
ghost use Rattle.chunk_elements.specs.Blocks.{AddsBlock};
ghost use Rattle.chunk_elements.specs.Dense.{IsDense};
ghost use Rattle.chunk_elements.specs.Shapes.{IsChunkShape};
ghost use Rattle.n5_blocks.specs.declared.chunk.BlockError.{BlockError};

use crate::faults::{block_fault, cells_of, header_len, sizes_in};
use crate::metadata::N5Meta;
use chunk_elements::{Dense, Dtype, Sizes, dense_of_block, put_dense, put_word};
use std::alloc::{AllocError, Global};
use thiserror::Error;

/// Why bytes are no block, the first that holds.
#[derive(Clone, Copy, Debug, PartialEq, Eq, Error)]
pub enum BlockError {
    /// The mode is `have` and not 0.
    #[error("a block of mode {have}")]
    WrongMode { have: u16 },
    /// The block has `have` dimensions, and the array has another number.
    #[error("a block of {have} dimensions")]
    WrongRank { have: u16 },
    /// The size `have` of the dimension `dim` is greater than the array's block size.
    #[error("a block of the size {have} in dimension {dim}")]
    WrongSize { dim: u32, have: u32 },
    /// There are `have` bytes; the header and the elements want `want`.
    #[error("a block of {want} bytes has {have}")]
    WrongLength { have: u64, want: u64 },
    /// An allocation failed.
    #[error("out of memory")]
    Memory,
}

impl From<AllocError> for BlockError {
    ghost use Rattle.n5_blocks.specs.declared.chunk.BlockError.TheVariants as block;

    ghost from_gives = { λ _ e. e ≡ block.Memory };

    fn from(_: AllocError) -> Self {
        BlockError::Memory
    }
}

/// The numbers that a block's bytes spell: a header of mode 0 with as many sizes as the array has, none greater than its
/// block's, then the elements of cells of these sizes, the first index fastest, the highest byte first, and nothing else. A
/// cell of the block that isn't stored has 0.
///
/// N5, "Blocks".
///
/// # Errors
/// The first that holds: `WrongLength` for fewer than 4 bytes, `WrongMode`, `WrongRank`, `WrongLength` for fewer bytes than
/// a header, `WrongSize` for the first size that is too great, `WrongLength` for any other length than the sizes want. Else
/// `Memory` where an allocation failed.
pub fn decode(alloc: Global, m: &N5Meta, bytes: &[u8]) -> Result<Dense, BlockError>
    ensures dtype { IfOk result (λ d. d.dtype ≡ m.now.dtype) }
    ensures shape { IfOk result (λ d. d.shape ≡ m.now.block) }
    ensures spells { IfOk result (λ d. SpellsBlock m.now bytes.now (word_at d)) }
    ensures refused { (e : BlockError) → block_fault m.now bytes.now ≡ Some e → result ≡ Err e }
    ensures causes { IfErr result (λ e. e ≢ BlockError.Memory → block_fault m.now bytes.now ≡ Some e) }
{
    if let Some(fault) = block_fault(m, bytes) {
        return Err(fault);
    }
    let Ok(cells) = read_cells(alloc, m, bytes) else {
        return Err(BlockError::Memory);
    };
    Ok(cells)
}

/// The bytes of the block of this index that spell its numbers. The block is written only as far as the array reaches.
///
/// N5, "Blocks".
///
/// # Errors
/// An allocation failed.
pub fn encode(alloc: Global, m: &N5Meta, chunk: &[u64], d: &Dense) -> Result<Vec<u8>, AllocError>
    requires dtype { d.now.dtype ≡ m.now.dtype }
    requires shape { d.now.shape ≡ m.now.block }
    requires reached { IsReached m.now chunk.now }
    requires outside { IsZeroOutside m.now chunk.now (word_at d.now) }
    ensures { IfOk result (λ bytes. WritesBlock m.now chunk.now bytes.items (word_at d.now)) }
{
    let sizes = cut_sizes(alloc, m.block.items(), m.dimensions.items(), chunk)?;
    write_block(alloc, d, sizes.as_slice())
}

/// The sizes of a block as far as the array reaches.
///
/// # Errors
/// An allocation failed.
pub fn cut_sizes(
    alloc: Global,
    block: &[u64],
    dimensions: &[u64],
    chunk: &[u64],
) -> Result<Vec<u64>, AllocError>
    requires ranks { length dimensions.now ≡ length block.now }
    requires rank { length chunk.now ≡ length block.now }
    requires inside { (k : ℕ) → k < length block.now
        → slice_index chunk.now k * slice_index block.now k < slice_index dimensions.now k }
    ensures { IfOk result (λ sizes. sizes.items ≡ cut_sizes block.now dimensions.now chunk.now) }
{
    let mut sizes = Vec::with_capacity(alloc, block.len())?;
    for k in 0..block.len() {
        let left = dimensions[k] - chunk[k] * block[k];
        sizes.push(block[k].min(left))?;
    }
    Ok(sizes)
}

// The numbers that a block's bytes spell.
fn read_cells(alloc: Global, m: &N5Meta, bytes: &[u8]) -> Result<Dense, AllocError>
    requires sound { block_fault m.now bytes.now ≡ None }
    ensures dtype { IfOk result (λ d. d.dtype ≡ m.now.dtype) }
    ensures shape { IfOk result (λ d. d.shape ≡ m.now.block) }
    ensures spells { IfOk result (λ d. SpellsBlock m.now bytes.now (word_at d)) }
{
    let rank = m.block.items().len();
    let shape = Vec::from_slice(alloc, m.block.items())?;
    let sizes = sizes_in(rank, bytes);
    let cells = dense_of_block(
        alloc,
        m.dtype,
        true,
        Sizes::wrap(shape),
        &sizes[..rank],
        &bytes[header_len(rank)..],
    )?;
    Ok(cells)
}

// The bytes of a block that store the cells of these sizes.
fn write_block(alloc: Global, d: &Dense, sizes: &[u64]) -> Result<Vec<u8>, AllocError>
    requires block { IsChunkShape d.now.shape }
    requires within { AreWithin d.now.shape sizes.now }
    ensures adds { IfOk result (λ bytes. AddsBlock d.now.dtype true d.now.shape sizes.now d.now.words (header sizes.now)
        bytes.items) }
    ensures well_formed { IsDense d.now }
{
    let item = d.dtype().byte_count();
    let len = header_len(sizes.len()) + cells_of(sizes) * item;
    let mut bytes = Vec::with_capacity(alloc, len)?;
    put_header(sizes, &mut bytes)?;
    put_dense(alloc, true, d, sizes, bytes)
}

// Appends the header of a block of these sizes.
fn put_header(sizes: &[u64], out: &mut Vec<u8>) -> Result<(), AllocError>
    requires rank { length sizes.now ≤ 32 }
    requires small { (k : ℕ) → k < length sizes.now → slice_index sizes.now k ≤ 2 ^ 24 }
    ensures { OnOk result (out.new.items ≡ out.old.items ++ header sizes.now) }
{
    put_element(Dtype::U16, 0, out)?;
    put_element(Dtype::U16, sizes.len() as u64, out)?;
    for size in sizes {
        put_element(Dtype::U32, *size, out)?;
    }
    Ok(())
}

// Appends the bytes of a word.
fn put_element(dtype: Dtype, word: u64, out: &mut Vec<u8>) -> Result<(), AllocError>
    requires { IsWord dtype word }
    ensures { OnOk result (out.new.items ≡ out.old.items ++ word_bytes dtype true word) }
{
    let mut buffer = [0; 8];
    let size = dtype.byte_count();
    put_word(dtype, true, word, &mut buffer[..size]);
    out.extend_from_slice(&buffer[..size])
}
