// Bytes of a chunk, prepared outside of a turn.
ghost use Rattle.std.specs.Prelude.{◌≡◌, Option, IfOk, option_map};
ghost use Rattle.std.specs.Option.{ForSome};
ghost use Rattle.chunk_forms.specs.Metadata.{chunk_shape_of, dtype_of};
ghost use Rattle.chunk_plans.specs.Left.{IsLeftAs};
ghost use Rattle.chunk_plans.specs.Laying.{MayLay, MayReady};
ghost use Rattle.chunk_plans.specs.Readying.{IsReadyOf, IsWriteFor, is_told};

use crate::asked::{Asked, Under};
use crate::leaving::{LeftOver, left_over};
use crate::write::{ChunkWrite, Ready};
use cells::Dense;
use std::alloc::{AllocError, Global};

impl<'a> Asked<'a> {
    /// Whether bytes are to be prepared of the chunk.
    pub fn is_told(&self) -> bool
        ensures { result ≡ is_told self.now.under }
    {
        match &self.under {
            Under::Covered => true,
            Under::Kept { .. } => true,
            Under::Unknown => false,
        }
    }
}

/// The words that are staged for a chunk, with the bytes that a commit leaves of it as far as they can be told: where the staged words
/// cover the chunk, or stand over the chunk as it was kept.
///
/// # Errors
/// Want of memory alone.
pub fn write_of<'a>(alloc: Global, asked: Asked<'a>) -> Result<ChunkWrite<'a>, AllocError>
    requires { MayReady asked.form asked.part.chunk.now asked.part.staged.now asked.under }
    ensures { IfOk result (IsWriteFor asked.entry) }
{
    let ready = ready_of(alloc, &asked)?;
    let Asked { part, key, .. } = asked;
    Ok(ChunkWrite {
        array: part.array,
        chunk: part.chunk,
        key,
        staged: part.staged,
        ready,
    })
}

fn ready_of(alloc: Global, asked: &Asked<'_>) -> Result<Option<Ready>, AllocError>
    requires { MayReady asked.now.form asked.now.part.chunk.now asked.now.part.staged.now asked.now.under }
    ensures { IfOk result (IsReadyOf asked.now) }
{
    match &asked.under {
        Under::Covered => {
            let ready = ready_over(alloc, asked, None, None)?;
            Ok(Some(ready))
        }
        Under::Kept { snapshot } => {
            let generation = Some(snapshot.generation());
            let base = Some(snapshot.cells());
            let ready = ready_over(alloc, asked, generation, base)?;
            Ok(Some(ready))
        }
        Under::Unknown => Ok(None),
    }
}

fn ready_over(
    alloc: Global,
    asked: &Asked<'_>,
    generation: Option<u64>,
    base: Option<&Dense>,
) -> Result<Ready, AllocError>
    requires lay { MayLay asked.now.form asked.now.part.chunk.now asked.now.part.staged.now }
    requires base_dtype { ForSome base (λ b. b.now.dtype ≡ dtype_of asked.now.form) }
    requires base_shape { ForSome base (λ b. b.now.shape ≡ chunk_shape_of asked.now.form) }
    ensures generation { IfOk result (λ r. r.generation ≡ generation) }
    ensures resized { IfOk result (λ r. r.resized ≡ asked.now.resized) }
    ensures left { IfOk result (λ r. IsLeftAs asked.now.form asked.now.part.chunk.now asked.now.part.staged.now
        (option_map (λ b. b.now) base.entry) r.cells r.bytes) }
{
    let part = asked.part;
    let left = left_over(alloc, &asked.form, part.chunk, part.staged, base)?;
    let LeftOver { cells, bytes } = left;
    Ok(Ready {
        generation,
        resized: asked.resized,
        bytes,
        cells,
    })
}
