// Files below a folder, by keys.
ghost use Rattle.std.specs.Prelude.{◌≡◌, codes, false, nat_eq, Err};
ghost use Rattle.std.specs.List.{ends_with};
ghost use Rattle.kv_mounts.specs.Files.{is_inside, is_part, is_step};

use kv_face::KvError;
use std::alloc::{AllocError, Global};
use std::fs::{self, Files, OpenFile};
use std::io::{self, ErrorKind, Read, Write};

// Whether the key names a file below the folder, by what its parts are.
fn is_inside(key: &str) -> bool
    ensures { result ≡ is_inside key.now }
{
    key.split('/').all(|part| is_part(part))
}

// Whether a part of a key may name a file or a folder: it names no folder by where it stands, and isn't a name under which the
// bytes of another key are written first.
fn is_part(part: &str) -> bool
    ensures { result ≡ is_part part.now }
{
    if is_step(part) { false } else { !is_new(part) }
}

// Whether it is empty, "." or "..".
fn is_step(part: &str) -> bool
    ensures { result ≡ is_step part.now }
{
    part.is_empty() || part == "." || part == ".."
}

// Whether it ends in "~new".
fn is_new(part: &str) -> bool
    ensures { result ≡ ends_with nat_eq part.now (codes "~new") }
{
    part.ends_with("~new")
}

fn path_of(alloc: Global, root: &str, key: &str, ending: &str) -> Result<String, AllocError> {
    format!(in alloc; "{root}/{key}{ending}")
}

fn cause(e: &io::Error) -> KvError {
    if e.kind() == ErrorKind::OutOfMemory {
        KvError::Memory
    } else {
        KvError::Failed
    }
}

/// The bytes of the file under a key, where there is one.
pub(crate) fn read_file<R: Files + AllocGlobal>(
    rt: &R,
    root: &str,
    key: &str,
) -> Result<Option<Vec<u8>>, KvError>
    ensures outside { is_inside key.now ≡ false → result ≡ Err KvError.Failed }
{
    if !is_inside(key) {
        return Err(KvError::Failed);
    }
    let path = path_of(rt.alloc(), root, key, "")?;
    match read_whole(rt, path.as_str()) {
        Ok(bytes) => Ok(Some(bytes)),
        Err(e) => {
            if e.kind() == ErrorKind::NotFound {
                Ok(None)
            } else {
                Err(cause(&e))
            }
        }
    }
}

// The bytes of a regular file, in memory of its length. What is none, as a pipe or a device, isn't opened, since reading it might
// never end.
fn read_whole<R: Files + AllocGlobal>(rt: &R, path: &str) -> io::Result<Vec<u8>> {
    let found = fs::metadata(rt, path)?;
    if !found.is_file() {
        return Err(ErrorKind::InvalidInput.into());
    }
    let mut file = fs::open(rt, path)?;
    let mut bytes = Vec::with_capacity(rt.alloc(), found.len() as usize)?;
    file.read_to_end(&mut bytes)?;
    Ok(bytes)
}

/// Puts bytes under a key: they are written beside its file, and take its place. When they reach the disk is left to the system.
pub(crate) fn put_file<R: Files + AllocGlobal>(
    rt: &R,
    root: &str,
    key: &str,
    bytes: &[u8],
) -> Result<(), KvError>
    ensures outside { is_inside key.now ≡ false → result ≡ Err KvError.Failed }
{
    if !is_inside(key) {
        return Err(KvError::Failed);
    }
    let path = path_of(rt.alloc(), root, key, "")?;
    put_at(rt, root, key, path.as_str(), bytes)
}

fn put_at<R: Files + AllocGlobal>(
    rt: &R,
    root: &str,
    key: &str,
    path: &str,
    bytes: &[u8],
) -> Result<(), KvError> {
    let beside = path_of(rt.alloc(), root, key, "~new")?;
    match put_beside(rt, beside.as_str(), path, bytes) {
        Ok(()) => Ok(()),
        Err(e) => Err(cause(&e)),
    }
}

// What is left of a failure beside the file goes.
fn put_beside<R: Files>(rt: &R, beside: &str, path: &str, bytes: &[u8]) -> io::Result<()> {
    let put = write_and_rename(rt, beside, path, bytes);
    if put.is_err() {
        let _gone = fs::remove_file(rt, beside).is_ok();
    }
    put
}

fn write_and_rename<R: Files>(rt: &R, beside: &str, path: &str, bytes: &[u8]) -> io::Result<()> {
    write_whole(rt, beside, bytes)?;
    fs::rename(rt, beside, path)
}

fn write_whole<R: Files>(rt: &R, path: &str, bytes: &[u8]) -> io::Result<()> {
    let mut file = create_in_folder(rt, path)?;
    file.write_all(bytes)
}

// A new file. Its folder is made where there is none, which the first call tells.
fn create_in_folder<R: Files>(rt: &R, path: &str) -> io::Result<R::File> {
    match fs::create(rt, path) {
        Ok(file) => Ok(file),
        Err(e) => {
            if e.kind() != ErrorKind::NotFound {
                return Err(e);
            }
            create_behind(rt, path)
        }
    }
}

fn create_behind<R: Files>(rt: &R, path: &str) -> io::Result<R::File> {
    if let Some((folder, _)) = path.rsplit_once('/') {
        fs::create_dir_all(rt, folder)?;
    }
    fs::create(rt, path)
}

/// Removes the file under a key, where there is one.
pub(crate) fn remove_file<R: Files + AllocGlobal>(
    rt: &R,
    root: &str,
    key: &str,
) -> Result<(), KvError>
    ensures outside { is_inside key.now ≡ false → result ≡ Err KvError.Failed }
{
    if !is_inside(key) {
        return Err(KvError::Failed);
    }
    let path = path_of(rt.alloc(), root, key, "")?;
    match fs::remove_file(rt, path.as_str()) {
        Ok(()) => Ok(()),
        Err(e) => {
            if e.kind() == ErrorKind::NotFound {
                Ok(())
            } else {
                Err(cause(&e))
            }
        }
    }
}
