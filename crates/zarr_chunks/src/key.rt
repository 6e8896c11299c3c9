ghost use Rattle.std.specs.Prelude.{◌≡◌, [], ◌∷◌, IfOk, length, string_bytes};
ghost use Rattle.zarr_chunks.specs.Key.{separator, chunk_key, joined_indices};

use crate::metadata::ZarrMeta;
use std::alloc::{AllocError, Global};

/// The key of a chunk below its array: the chunk's indices in decimal, with the separator between them, and "0" for
/// rank 0.
///
/// Zarr version 2, "Chunk keys".
///
/// # Errors
/// An allocation failed.
pub fn key_of(alloc: Global, m: &ZarrMeta, chunk: &[u64]) -> Result<String, AllocError>
    requires { length chunk.now ≡ length m.now.shape }
    ensures { IfOk result (λ key. string_bytes key ≡ chunk_key m.now.slash chunk.now) }
{
    match chunk {
        [] => String::from_str(alloc, "0"),
        [first, rest @ ..] => joined(alloc, separator(m.slash), *first, rest),
    }
}

pub(crate) fn separator(slash: bool) -> &'static str
    ensures { result.now ≡ separator slash ∷ [] }
{
    if slash { "/" } else { "." }
}

fn joined(alloc: Global, between: &str, first: u64, rest: &[u64]) -> Result<String, AllocError>
    ensures { IfOk result (λ key. string_bytes key ≡ joined_indices between.now (first ∷ rest.now)) }
{
    let mut key = format!(in alloc; "{first}")?;
    for index in rest {
        key.push_str(between)?;
        write!(key, "{index}")?;
    }
    Ok(key)
}
