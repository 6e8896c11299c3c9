// The keys of an array's chunks and of its metadata.
ghost use Rattle.std.specs.Prelude.{◌≡◌, ◌++◌, ◌∷◌, [], ℕ, IfOk, string_bytes, option_map};
ghost use Rattle.history.specs.Names.{chunk_name, metadata_name};
ghost use Rattle.history.specs.Wants.{metadata_name_asked};
ghost use Rattle.history.specs.Arrays.{form_of};
ghost use Rattle.history.specs.Chunks.{home_text};
ghost use Rattle.array_homes.specs.Names.{HasRank};

use history::{Home, Want};
use std::alloc::{AllocError, Global};

/// What stands before each name in the keys of an array: `MOUNT/PATH/`, or for an array of the run `array/N/`, N being the
/// number of the event that opened it.
///
/// # Errors
/// An allocation failed.
pub fn home_text(alloc: Global, home: &Home, opened: u64) -> Result<String, AllocError>
    ensures { IfOk result (λ text. string_bytes text ≡ home_text home.now opened) }
{
    match home {
        Home::Zarr { mount, path, .. } => folder(alloc, mount.items(), path.items()),
        Home::N5 { mount, path, .. } => folder(alloc, mount.items(), path.items()),
        Home::Zarr3 { mount, path, .. } => folder(alloc, mount.items(), path.items()),
        Home::Local { .. } => format!(in alloc; "array/{opened}/"),
    }
}

fn folder(alloc: Global, mount: &str, path: &str) -> Result<String, AllocError>
    ensures { IfOk result (λ text. string_bytes text ≡ mount.now ++ 47 ∷ path.now ++ 47 ∷ []) }
{
    format!(in alloc; "{mount}/{path}/")
}

/// The key of the chunk of this index: behind `MOUNT/PATH/` its name by the array's format. An array of the run has one
/// chunk, `array/N/0`.
///
/// Zarr version 2, "Chunk keys"; Zarr version 3, "Chunk key encoding"; N5, "Blocks".
///
/// # Errors
/// An allocation failed.
pub fn chunk_key(
    alloc: Global,
    home: &Home,
    opened: u64,
    chunk: &[u64],
) -> Result<String, AllocError>
    requires { HasRank home.now chunk.now }
    ensures { IfOk result (λ key. string_bytes key
        ≡ home_text home.now opened ++ chunk_name (form_of home.now) chunk.now) }
{
    let name = chunk_name(alloc, home, chunk)?;
    in_home(alloc, home, opened, name.as_str())
}

fn chunk_name(alloc: Global, home: &Home, chunk: &[u64]) -> Result<String, AllocError>
    requires { HasRank home.now chunk.now }
    ensures { IfOk result (λ name. string_bytes name ≡ chunk_name (form_of home.now) chunk.now) }
{
    match home {
        Home::Zarr { meta, .. } => {
            // A look at a field, by which the contract knows the rules of metadata; so below.
            let _ = &meta.shape;
            zarr_chunks::key_of(alloc, meta, chunk)
        }
        Home::N5 { meta, .. } => {
            let _ = &meta.dimensions;
            n5_blocks::key_of(alloc, meta, chunk)
        }
        Home::Zarr3 { meta, .. } => {
            let _ = &meta.shape;
            zarr3_chunks::key_of(alloc, meta, chunk)
        }
        Home::Local { .. } => String::from_str(alloc, "0"),
    }
}

// A name behind what stands before each name.
fn in_home(alloc: Global, home: &Home, opened: u64, name: &str) -> Result<String, AllocError>
    ensures { IfOk result (λ key. string_bytes key ≡ home_text home.now opened ++ name.now) }
{
    let mut key = home_text(alloc, home, opened)?;
    key.push_str(name)?;
    Ok(key)
}

/// The key of an array's metadata, `MOUNT/PATH/` and `.zarray`, `attributes.json` or `zarr.json`. An array of the run has none.
///
/// # Errors
/// An allocation failed.
pub fn metadata_key(alloc: Global, home: &Home) -> Result<Option<String>, AllocError>
    ensures { IfOk result (λ key. (opened : ℕ) → option_map (λ k. string_bytes k) key
        ≡ option_map (λ name. home_text home.now opened ++ name) (metadata_name (form_of home.now))) }
{
    match home {
        Home::Zarr { mount, path, .. } => Ok(Some(in_folder(
            alloc,
            mount.items(),
            path.items(),
            ".zarray",
        )?)),
        Home::N5 { mount, path, .. } => Ok(Some(in_folder(
            alloc,
            mount.items(),
            path.items(),
            "attributes.json",
        )?)),
        Home::Zarr3 { mount, path, .. } => Ok(Some(in_folder(
            alloc,
            mount.items(),
            path.items(),
            "zarr.json",
        )?)),
        Home::Local { .. } => Ok(None),
    }
}

fn in_folder(alloc: Global, mount: &str, path: &str, name: &str) -> Result<String, AllocError>
    ensures { IfOk result (λ key. string_bytes key ≡ mount.now ++ 47 ∷ path.now ++ 47 ∷ name.now) }
{
    format!(in alloc; "{mount}/{path}/{name}")
}

/// The key at which the metadata of what is asked lies.
///
/// # Errors
/// An allocation failed.
pub fn metadata_key_asked(
    alloc: Global,
    mount: &str,
    path: &str,
    want: &Want,
) -> Result<String, AllocError>
    ensures { IfOk result (λ key. string_bytes key
        ≡ mount.now ++ 47 ∷ path.now ++ 47 ∷ metadata_name_asked want.now) }
{
    in_folder(alloc, mount, path, asked_name(want))
}

fn asked_name(want: &Want) -> &'static str
    ensures { result.now ≡ metadata_name_asked want.now }
{
    match want {
        Want::Zarr { .. } => ".zarray",
        Want::N5 { .. } => "attributes.json",
        Want::Zarr3 { .. } => "zarr.json",
    }
}
