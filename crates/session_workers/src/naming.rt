// The names of mounts.
ghost use Rattle.std.specs.Prelude.{◌≡◌, IfOk};
ghost use Rattle.kv_mounts.specs.Parts.{names_of};

use cells::Name;
use kv_face::KvStore;
use kv_mounts::Mount;
use std::alloc::{AllocError, Global};

/// Copies of the names of mounts, in their order.
pub(crate) fn names_of<K: KvStore>(
    alloc: Global,
    mounts: &[Mount<K>],
) -> Result<Vec<Name>, AllocError>
    ensures { IfOk result (λ names. names.items ≡ names_of mounts.now) }
{
    let mut names = Vec::with_capacity(alloc, mounts.len())?;
    for mount in mounts {
        names.push(copied(alloc, mount.name.items())?)?;
    }
    Ok(names)
}

fn copied(alloc: Global, name: &str) -> Result<Name, AllocError>
    ensures { IfOk result (λ n. n ≡ name.now) }
{
    Ok(Name::wrap(String::from_str(alloc, name)?))
}
