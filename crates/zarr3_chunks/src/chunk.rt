ghost use Rattle.std.specs.Prelude.{◌≡◌, ◌≢◌, ◌↔◌, ◌<◌, ◌≤◌, ◌^◌, ℕ, Err, IfOk, IfErr, length, slice_index};
ghost use Rattle.chunk_elements.specs.Numbers.{IsWord};
ghost use Rattle.chunk_elements.specs.Places.{cell_count, c_place};
ghost use Rattle.chunk_elements.specs.Chunk.{word_at};
ghost use Rattle.chunk_elements.specs.declared.error.ChunkError.{ChunkError};
ghost use Rattle.chunk_elements.specs.declared.error.ChunkError.TheVariants as error;
ghost use Rattle.zarr3_chunks.specs.Chunk.{SpellsChunk, chunk_len};

use crate::metadata::Zarr3Meta;
use chunk_elements::{
    ChunkError, Dense, MOST_CHUNK_CELLS, Sizes, bytes_of_dense, count_cells, dense_of,
};
use std::alloc::{AllocError, Global};

/// The numbers that a chunk's bytes spell: the elements in C order in the stated byte order, and nothing else.
///
/// Zarr version 3, "Chunks"; codec "bytes".
///
/// # Errors
/// `WrongLength` where the length isn't that of a chunk, and `Memory` where an allocation failed.
pub fn decode(alloc: Global, m: &Zarr3Meta, bytes: &[u8]) -> Result<Dense, ChunkError>
    ensures dtype { IfOk result (λ d. d.dtype ≡ m.now.dtype) }
    ensures shape { IfOk result (λ d. d.shape ≡ m.now.chunks) }
    ensures spells { IfOk result (λ d. SpellsChunk m.now bytes.now (word_at d)) }
    ensures wrong_length { (result ≡ Err (error.WrongLength (length bytes.now) (chunk_len m.now)))
        ↔ (length bytes.now ≢ chunk_len m.now) }
    ensures causes { IfErr result (λ e. e ≢ error.Memory
        → e ≡ error.WrongLength (length bytes.now) (chunk_len m.now)) }
{
    let count = cells_of(m);
    let want = count * m.dtype.byte_count();
    if bytes.len() != want {
        return Err(ChunkError::WrongLength {
            have: bytes.len() as u64,
            want: want as u64,
        });
    }
    let Ok(cells) = read_cells(alloc, m, bytes) else {
        return Err(ChunkError::Memory);
    };
    Ok(cells)
}

/// The bytes of a chunk that spell its numbers.
///
/// Zarr version 3, "Chunks"; codec "bytes".
///
/// # Errors
/// An allocation failed.
pub fn encode(alloc: Global, m: &Zarr3Meta, d: &Dense) -> Result<Vec<u8>, AllocError>
    requires dtype { d.now.dtype ≡ m.now.dtype }
    requires shape { d.now.shape ≡ m.now.chunks }
    ensures { IfOk result (λ bytes. SpellsChunk m.now bytes.items (word_at d.now)) }
{
    bytes_of_dense(alloc, m.big, d)
}

// The number of cells of a chunk.
fn cells_of(m: &Zarr3Meta) -> usize
    ensures value { result ≡ cell_count m.now.chunks }
    ensures small { result ≤ 2 ^ 24 }
{
    let Some(count) = count_cells(m.chunks.items(), MOST_CHUNK_CELLS) else {
        unreachable!();
    };
    count as usize
}

// The cells that a chunk's bytes spell.
fn read_cells(alloc: Global, m: &Zarr3Meta, bytes: &[u8]) -> Result<Dense, AllocError>
    requires full { length bytes.now ≡ chunk_len m.now }
    ensures dtype { IfOk result (λ d. d.dtype ≡ m.now.dtype) }
    ensures shape { IfOk result (λ d. d.shape ≡ m.now.chunks) }
    ensures spells { IfOk result (λ d. SpellsChunk m.now bytes.now (word_at d)) }
{
    let shape = Vec::from_slice(alloc, m.chunks.items())?;
    let cells = dense_of(alloc, m.dtype, m.big, Sizes::wrap(shape), bytes)?;
    Ok(cells)
}
