// Copies of texts and sizes.
ghost use Rattle.std.specs.Prelude.{◌≡◌, IfOk};

use crate::name::Name;
use crate::words::Sizes;
use std::alloc::{AllocError, Global};

/// A name of its own.
pub fn copy_name(alloc: Global, name: &str) -> Result<Name, AllocError>
    ensures { IfOk result (λ n. n ≡ name.now) }
{
    Ok(Name::wrap(String::from_str(alloc, name)?))
}

/// Sizes of their own.
pub fn copy_sizes(alloc: Global, sizes: &[u64]) -> Result<Sizes, AllocError>
    ensures { IfOk result (λ s. s ≡ sizes.now) }
{
    Ok(Sizes::wrap(Vec::from_slice(alloc, sizes)?))
}
