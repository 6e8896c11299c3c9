ghost use Rattle.std.specs.Prelude.{◌≡◌, ◌∷◌, IfOk, length, string_bytes};
ghost use Rattle.n5_blocks.specs.Key.{block_key};

use crate::metadata::N5Meta;
use std::alloc::{AllocError, Global};

/// The key of a block below its array: the block's indices in decimal, with "/" between them.
///
/// N5, "Blocks".
///
/// # Errors
/// An allocation failed.
pub fn key_of(alloc: Global, m: &N5Meta, chunk: &[u64]) -> Result<String, AllocError>
    requires { length chunk.now ≡ length m.now.dimensions }
    ensures { IfOk result (λ key. string_bytes key ≡ block_key chunk.now) }
{
    match chunk {
        [] => Ok(String::new(alloc)),
        [first, rest @ ..] => joined(alloc, *first, rest),
    }
}

fn joined(alloc: Global, first: u64, rest: &[u64]) -> Result<String, AllocError>
    ensures { IfOk result (λ key. string_bytes key ≡ block_key (first ∷ rest.now)) }
{
    let mut key = format!(in alloc; "{first}")?;
    for index in rest {
        key.push_str("/")?;
        write!(key, "{index}")?;
    }
    Ok(key)
}
