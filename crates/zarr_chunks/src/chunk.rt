ghost use Rattle.std.specs.Prelude.{◌≡◌, ◌≢◌, ◌↔◌, ◌*◌, ◌<◌, ◌≤◌, ◌^◌, ℕ, IfOk, IfErr, false, length, slice_index};
ghost use Rattle.chunk_elements.specs.Numbers.{IsWord};
ghost use Rattle.chunk_elements.specs.declared.Order.TheVariants as ordering;
ghost use Rattle.chunk_elements.specs.Places.{cell_count, c_place};
ghost use Rattle.chunk_elements.specs.Shapes.{IsChunkShape};
ghost use Rattle.chunk_elements.specs.Blocks.{StoresWords};
ghost use Rattle.zarr_chunks.specs.Chunk.{SpellsChunk, chunk_len, word_at};

use crate::metadata::ZarrMeta;
use chunk_elements::{
    ChunkError, Dense, MOST_CHUNK_CELLS, Order, Sizes, bytes_of_dense, count_cells, dense_of,
    dense_of_block, put_dense,
};
use std::alloc::{AllocError, Global};

/// The numbers that a chunk's bytes spell: the elements in the stated order and byte order, and nothing else.
///
/// Zarr version 2, "Chunks".
///
/// # Errors
/// `WrongLength` where the length isn't that of a chunk, and `Memory` where an allocation failed.
pub fn decode(alloc: Global, m: &ZarrMeta, bytes: &[u8]) -> Result<Dense, ChunkError>
    ensures dtype { IfOk result (λ d. d.dtype ≡ m.now.dtype) }
    ensures shape { IfOk result (λ d. d.shape ≡ m.now.chunks) }
    ensures spells { IfOk result (λ d. SpellsChunk m.now bytes.now (word_at d)) }
    ensures wrong_length { (result ≡ Err (ChunkError.WrongLength (length bytes.now) (chunk_len m.now)))
        ↔ (length bytes.now ≢ chunk_len m.now) }
    ensures causes { IfErr result (λ e. e ≢ ChunkError.Memory
        → e ≡ ChunkError.WrongLength (length bytes.now) (chunk_len m.now)) }
{
    let count = cells_of(m);
    let want = count * m.dtype.byte_count();
    if bytes.len() != want {
        return Err(ChunkError::WrongLength {
            have: bytes.len() as u64,
            want: want as u64,
        });
    }
    let Ok(cells) = read_cells(alloc, m, bytes) else {
        return Err(ChunkError::Memory);
    };
    Ok(cells)
}

/// The bytes of a chunk that spell its numbers.
///
/// Zarr version 2, "Chunks".
///
/// # Errors
/// An allocation failed.
pub fn encode(alloc: Global, m: &ZarrMeta, d: &Dense) -> Result<Vec<u8>, AllocError>
    requires dtype { d.now.dtype ≡ m.now.dtype }
    requires shape { d.now.shape ≡ m.now.chunks }
    ensures { IfOk result (λ bytes. SpellsChunk m.now bytes.items (word_at d.now)) }
{
    match m.order {
        Order::C if !m.big => Vec::from_slice(alloc, d.bytes()),
        Order::C => spell_elements(alloc, m, d),
        Order::F => spell_block(alloc, m, d),
    }
}

// The same in C order.
fn spell_elements(alloc: Global, m: &ZarrMeta, d: &Dense) -> Result<Vec<u8>, AllocError>
    requires order { m.now.order ≡ ordering.C }
    requires dtype { d.now.dtype ≡ m.now.dtype }
    requires shape { d.now.shape ≡ m.now.chunks }
    ensures { IfOk result (λ bytes. SpellsChunk m.now bytes.items (word_at d.now)) }
{
    bytes_of_dense(alloc, m.big, d)
}

// The same in F order.
fn spell_block(alloc: Global, m: &ZarrMeta, d: &Dense) -> Result<Vec<u8>, AllocError>
    requires order { m.now.order ≡ ordering.F }
    requires dtype { d.now.dtype ≡ m.now.dtype }
    requires shape { d.now.shape ≡ m.now.chunks }
    ensures { IfOk result (λ bytes. SpellsChunk m.now bytes.items (word_at d.now)) }
{
    let bytes = Vec::with_capacity(alloc, d.bytes().len())?;
    put_dense(alloc, m.big, d, m.chunks.items(), bytes)
}

// The number of cells of a chunk.
fn cells_of(m: &ZarrMeta) -> usize
    ensures value { result ≡ cell_count m.now.chunks }
    ensures small { result ≤ 2 ^ 24 }
{
    let Some(count) = count_cells(m.chunks.items(), MOST_CHUNK_CELLS) else {
        unreachable!();
    };
    count as usize
}

// The cells that a chunk's bytes spell.
fn read_cells(alloc: Global, m: &ZarrMeta, bytes: &[u8]) -> Result<Dense, AllocError>
    requires full { length bytes.now ≡ chunk_len m.now }
    ensures dtype { IfOk result (λ d. d.dtype ≡ m.now.dtype) }
    ensures shape { IfOk result (λ d. d.shape ≡ m.now.chunks) }
    ensures spells { IfOk result (λ d. SpellsChunk m.now bytes.now (word_at d)) }
{
    match m.order {
        Order::C if !m.big => keep_bytes(alloc, m, bytes),
        Order::C => take_elements(alloc, m, bytes),
        Order::F => take_block(alloc, m, bytes),
    }
}

// The elements are items as they stand.
fn keep_bytes(alloc: Global, m: &ZarrMeta, bytes: &[u8]) -> Result<Dense, AllocError>
    requires order { m.now.order ≡ ordering.C }
    requires little { m.now.big ≡ false }
    requires full { length bytes.now ≡ chunk_len m.now }
    ensures dtype { IfOk result (λ d. d.dtype ≡ m.now.dtype) }
    ensures shape { IfOk result (λ d. d.shape ≡ m.now.chunks) }
    ensures spells { IfOk result (λ d. SpellsChunk m.now bytes.now (word_at d)) }
{
    let shape = Vec::from_slice(alloc, m.chunks.items())?;
    let items = Vec::from_slice(alloc, bytes)?;
    Ok(Dense::from_bytes(m.dtype, Sizes::wrap(shape), items))
}

// Elements one after another in C order.
fn take_elements(alloc: Global, m: &ZarrMeta, bytes: &[u8]) -> Result<Dense, AllocError>
    requires order { m.now.order ≡ ordering.C }
    requires full { length bytes.now ≡ chunk_len m.now }
    ensures dtype { IfOk result (λ d. d.dtype ≡ m.now.dtype) }
    ensures shape { IfOk result (λ d. d.shape ≡ m.now.chunks) }
    ensures spells { IfOk result (λ d. SpellsChunk m.now bytes.now (word_at d)) }
{
    let shape = Vec::from_slice(alloc, m.chunks.items())?;
    let cells = dense_of(alloc, m.dtype, m.big, Sizes::wrap(shape), bytes)?;
    Ok(cells)
}

// The first index fastest.
fn take_block(alloc: Global, m: &ZarrMeta, bytes: &[u8]) -> Result<Dense, AllocError>
    requires order { m.now.order ≡ ordering.F }
    requires full { length bytes.now ≡ chunk_len m.now }
    ensures dtype { IfOk result (λ d. d.dtype ≡ m.now.dtype) }
    ensures shape { IfOk result (λ d. d.shape ≡ m.now.chunks) }
    ensures spells { IfOk result (λ d. SpellsChunk m.now bytes.now (word_at d)) }
{
    let shape = Vec::from_slice(alloc, m.chunks.items())?;
    let cells = dense_of_block(
        alloc,
        m.dtype,
        m.big,
        Sizes::wrap(shape),
        m.chunks.items(),
        bytes,
    )?;
    Ok(cells)
}
