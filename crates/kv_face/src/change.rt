ghost use Rattle.std.specs.Prelude.{◌≡◌, IfOk};

use cells::{List, Name};
use std::alloc::{AllocError, Global};

/// New bytes under a key, or none: then the key goes.
#[derive(Drop)]
pub struct Change {
    pub key: Name,
    pub bytes: Option<List<u8>>,
}

fn copy_bytes(alloc: Global, bytes: &Option<List<u8>>) -> Result<Option<List<u8>>, AllocError>
    ensures { IfOk result (λ b. b ≡ bytes.now) }
{
    match bytes {
        Some(bytes) => Ok(Some(List::wrap(Vec::from_slice(alloc, bytes.items())?))),
        None => Ok(None),
    }
}

fn copy(alloc: Global, change: &Change) -> Result<Change, AllocError>
    ensures { IfOk result (λ c. c ≡ change.now) }
{
    let bytes = copy_bytes(alloc, &change.bytes)?;
    let key = Name::wrap(String::from_str(alloc, change.key.items())?);
    Ok(Change { key, bytes })
}

/// Copies of changes, for a store that keeps them.
///
/// # Errors
/// Want of memory alone.
pub fn copy_changes(alloc: Global, changes: &[Change]) -> Result<Vec<Change>, AllocError>
    ensures { IfOk result (λ v. v.items ≡ changes.now) }
{
    let mut all = Vec::with_capacity(alloc, changes.len())?;
    for change in changes {
        all.push(copy(alloc, change)?)?;
    }
    Ok(all)
}
