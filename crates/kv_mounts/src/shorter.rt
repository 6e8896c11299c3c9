// Changes under the keys that the store of a mount has for them.
ghost use Rattle.std.specs.Prelude.{◌≡◌, ◌≤◌, IfOk, length, true};
ghost use Rattle.kv_mounts.specs.Parts.{all_below, begins, behind, shortened};

use cells::Name;
use kv_face::Change;
use std::alloc::{AllocError, Global};

/// Changes, each under the key that is behind the name.
pub(crate) fn shorter(
    alloc: Global,
    name: &str,
    changes: Vec<Change>,
) -> Result<Vec<Change>, AllocError>
    requires few { length name.now ≤ 64 }
    requires below { all_below name.now changes.items 0 ≡ true }
    ensures { IfOk result (λ all. all.items ≡ shortened name.now changes.items) }
{
    let mut all = Vec::with_capacity(alloc, changes.len())?;
    for change in changes {
        all.push(shorter_one(alloc, name, change)?)?;
    }
    Ok(all)
}

fn shorter_one(alloc: Global, name: &str, change: Change) -> Result<Change, AllocError>
    requires few { length name.now ≤ 64 }
    requires below { begins name.now change.key ≡ true }
    ensures { IfOk result (λ c. c ≡ record { key = behind name.now change.key; bytes = change.bytes }) }
{
    let Change { key, bytes } = change;
    let key = rest_of(alloc, name, key)?;
    Ok(Change { key, bytes })
}

fn rest_of(alloc: Global, name: &str, key: Name) -> Result<Name, AllocError>
    requires few { length name.now ≤ 64 }
    requires below { begins name.now key ≡ true }
    ensures { IfOk result (λ k. k ≡ behind name.now key) }
{
    let rest = String::from_str(alloc, behind(name, key.items()))?;
    Ok(Name::wrap(rest))
}

// What is behind the name and the slash.
pub(crate) fn behind<'a>(name: &str, key: &'a str) -> &'a str
    requires few { length name.now ≤ 64 }
    requires below { begins name.now key.now ≡ true }
    ensures { result.now ≡ behind name.now key.now }
{
    &key[name.len() + 1..]
}
