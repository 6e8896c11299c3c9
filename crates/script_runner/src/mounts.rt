// The list of mounts.
ghost use Rattle.std.specs.Prelude.{◌≡◌, IfOk, is_some, true, false};
ghost use Rattle.kv_face.specs.Memory.{new_store};
ghost use Rattle.kv_mounts.specs.Parts.{AreMounts};
ghost use Rattle.script_runner.specs.Parts.{memory_part, file_part, parts_of};
ghost use Rattle.script_runner.specs.declared.store.Store.TheVariants.{Memory, Files as InFiles};

use crate::store::Store;
use cells::Name;
use kv_face::MemoryKv;
use kv_mounts::{FileKv, Mount};
use std::alloc::{AllocError, Global};
use std::fs::Files;

/// The mount `memory`, whose store is empty and makes all changes together; and behind it, where a folder is given, the mount `file`, whose
/// store is the files below it. An empty text is the current folder.
///
/// # Errors
/// An allocation failed.
pub fn new_mounts<R: Files + AllocGlobal + Drop>(
    rt: R,
    folder: Option<&str>,
) -> Result<Vec<Mount<Store<R>>>, AllocError>
    ensures are { IfOk result (λ m. AreMounts m.items) }
    ensures parts { IfOk result (λ m. m.items ≡ parts_of (is_some folder.entry)) }
{
    let mounts = listed(rt, folder)?;
    Ok(mounts)
}

fn listed<R: Files + AllocGlobal + Drop>(
    rt: R,
    folder: Option<&str>,
) -> Result<Vec<Mount<Store<R>>>, AllocError>
    ensures { IfOk result (λ m. m.items ≡ parts_of (is_some folder.entry)) }
{
    let mut mounts = Vec::new(rt.alloc());
    mounts.push(memory_mount(rt.alloc())?)?;
    if let Some(folder) = folder {
        mounts.push(file_mount(rt, folder)?)?;
    }
    Ok(mounts)
}

fn memory_mount<R: Files + AllocGlobal + Drop>(alloc: Global) -> Result<Mount<Store<R>>, AllocError>
    ensures { IfOk result (λ m. m ≡ memory_part) }
{
    Ok(Mount {
        name: Name::wrap(String::from_str(alloc, "memory")?),
        store: in_memory(alloc),
    })
}

// A store in memory: empty, one that makes all changes together, and none of whose calls is to fail.
fn in_memory<R: Files + AllocGlobal + Drop>(alloc: Global) -> Store<R>
    ensures { result ≡ Memory (new_store true) }
{
    Store::Memory(MemoryKv::new(alloc, true))
}

fn file_mount<R: Files + AllocGlobal + Drop>(
    rt: R,
    folder: &str,
) -> Result<Mount<Store<R>>, AllocError>
    ensures { IfOk result (λ m. m ≡ file_part) }
{
    let name = Name::wrap(String::from_str(rt.alloc(), "file")?);
    let store = in_files(rt, folder)?;
    Ok(Mount { name, store })
}

// A store of files: no fault yet, and not finished.
fn in_files<R: Files + AllocGlobal + Drop>(rt: R, folder: &str) -> Result<Store<R>, AllocError>
    ensures { IfOk result (λ store. store ≡ InFiles (record { faults = 0; is_finished = false })) }
{
    Ok(Store::Files(FileKv::new(rt, folder)?))
}
