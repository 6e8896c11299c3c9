ghost use Rattle.std.specs.Prelude.{◌≡◌, [], ◌∷◌, IfOk, length, string_bytes};
ghost use Rattle.zarr3_chunks.specs.Key.{separator, chunk_key};

use crate::metadata::Zarr3Meta;
use std::alloc::{AllocError, Global};

/// The key of a chunk below its array: "c", and behind it the separator and the index of each dimension.
///
/// Zarr version 3, "Chunk key encoding".
///
/// # Errors
/// An allocation failed.
pub fn key_of(alloc: Global, m: &Zarr3Meta, chunk: &[u64]) -> Result<String, AllocError>
    requires { length chunk.now ≡ length m.now.shape }
    ensures { IfOk result (λ key. string_bytes key ≡ chunk_key m.now.dot chunk.now) }
{
    let between = separator(m.dot);
    let mut key = String::from_str(alloc, "c")?;
    for index in chunk {
        key.push_str(between)?;
        write!(key, "{index}")?;
    }
    Ok(key)
}

pub(crate) fn separator(dot: bool) -> &'static str
    ensures { result.now ≡ separator dot ∷ [] }
{
    if dot { "." } else { "/" }
}
