// Stores that begin with what a line says.
ghost use Rattle.std.specs.Prelude.{◌≡◌, None, IfOk};
ghost use Rattle.transaction_cases.specs.Mounted.{two_names};
ghost use Rattle.kv_mounts.specs.Parts.{names_of};

use case_lines::{Fault, items_if, store_of};
use cells::Name;
use kv_face::MemoryKv;
use kv_mounts::{Mount, Mounts};
use serde_json::Value;
use std::alloc::Global;

/// `{"keys":[[KEY,BYTES],..],"get":N,"apply":N,"apart":B}`: a store that has under each key these bytes, and of which the call of `get`
/// or `apply` that is named fails, counted from 1 behind the filling. With `apart` it makes one change at a time.
pub(crate) fn store(alloc: Global, v: &Value) -> Result<MemoryKv, Fault> {
    store_of(alloc, v, items_if(v, "keys")?)
}

/// Two such stores, mounted as `a` and `b`.
pub(crate) fn mounts(alloc: Global, a: &Value, b: &Value) -> Result<Mounts<MemoryKv>, Fault>
    ensures { IfOk result (λ mounts. names_of mounts ≡ two_names) }
{
    let mut list = Vec::with_capacity(alloc, 2)?;
    list.push(mount(alloc, "a", a)?)?;
    list.push(mount(alloc, "b", b)?)?;
    Ok(Mounts::new(alloc, list))
}

fn mount(alloc: Global, name: &str, v: &Value) -> Result<Mount<MemoryKv>, Fault>
    ensures named { IfOk result (λ m. m.name ≡ name.now) }
    ensures every { IfOk result (λ m. m.names ≡ None) }
{
    let store = store(alloc, v)?;
    let name = Name::wrap(String::from_str(alloc, name)?);
    Ok(Mount { name, store })
}
