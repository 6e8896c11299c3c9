// The names of chunks, read back.
ghost use Rattle.std.specs.Prelude.{◌≡◌, ◌≤◌, ◌<◌, ◌==◌, ◌↔◌, ◌^◌, ℕ, IfSome, IsTrue, Some, codes, length, position};
ghost use Rattle.std.specs.List.{position_or_len};
ghost use Rattle.history.specs.Metadata.{IsMetadata};
ghost use Rattle.history.specs.Arrays.{form_of};
ghost use Rattle.array_homes.specs.Names.{IsChunkName, local_key, IsNameIn, IsJoined, IsEncoded, AreBehind, ArePositive};

use crate::numbers::{is_start, number};
use history::{ArrayInfo, Home};

/// Whether this is the name of a chunk of the array below `MOUNT/PATH/`, or below `array/N/` for an array of the run. The chunk
/// may lie past the array's shape, but begins at finite indices. Takes no memory.
///
/// Zarr version 2, "Chunk keys"; Zarr version 3, "Chunk key encoding"; N5, "Blocks".
pub fn is_chunk_name(info: &ArrayInfo, name: &[u8]) -> bool
    ensures { IsTrue result ↔ IsChunkName info.now name.now }
{
    is_name(&info.home, name)
}

fn is_name(home: &Home, name: &[u8]) -> bool
    ensures value { IsTrue result ↔ IsNameIn home.now name.now }
    ensures valid { IsMetadata (form_of home.now) }
{
    match home {
        Home::Zarr { meta, .. } => {
            let separator = if meta.slash { b'/' } else { b'.' };
            is_joined(meta.chunks.items(), separator, name)
        }
        Home::N5 { meta, .. } => is_joined(meta.block.items(), b'/', name),
        Home::Zarr3 { meta, .. } => {
            let separator = if meta.dot { b'.' } else { b'/' };
            is_encoded(meta.chunks.items(), separator, name)
        }
        Home::Local { .. } => is_zero(name),
    }
}

// Numbers with the separator between them, and "0" where there is none.
fn is_joined(sizes: &[u64], separator: u8, name: &[u8]) -> bool
    requires sizes { ArePositive sizes.now }
    requires separator { separator < 48 }
    ensures { IsTrue result ↔ IsJoined sizes.now separator name.now }
{
    let [size, others @ ..] = sizes else {
        return is_zero(name);
    };
    let (part, behind) = name.split_at(part_end(separator, name));
    is_start(*size, part) && are_behind(others, separator, behind)
}

fn is_zero(name: &[u8]) -> bool
    ensures { IsTrue result ↔ (codes "0" ≡ name.now) }
{
    match name {
        [digit] => *digit == b'0',
        _ => false,
    }
}

// "c", and the numbers behind it.
fn is_encoded(sizes: &[u64], separator: u8, name: &[u8]) -> bool
    requires sizes { ArePositive sizes.now }
    requires separator { separator < 48 }
    ensures { IsTrue result ↔ IsEncoded sizes.now separator name.now }
{
    match name {
        [b'c', behind @ ..] => are_behind(sizes, separator, behind),
        _ => false,
    }
}

// For each size the separator and a number.
fn are_behind(sizes: &[u64], separator: u8, text: &[u8]) -> bool
    requires sizes { ArePositive sizes.now }
    requires separator { separator < 48 }
    ensures { IsTrue result ↔ AreBehind sizes.now separator text.now }
{
    let [size, others @ ..] = sizes else {
        return text.is_empty();
    };
    let [first, tail @ ..] = text else {
        return false;
    };
    if *first != separator {
        return false;
    }
    let (part, behind) = tail.split_at(part_end(separator, tail));
    is_start(*size, part) && are_behind(others, separator, behind)
}

// Where the first separator stands, else the text's length.
fn part_end(separator: u8, text: &[u8]) -> usize
    ensures value { result ≡ position_or_len (λ b. b == separator) text.now }
    ensures within { result ≤ length text.now }
{
    separator_at(separator, text).unwrap_or(text.len())
}

fn separator_at(separator: u8, text: &[u8]) -> Option<usize>
    ensures { result ≡ position (λ b. b == separator) text.now }
{
    text.iter().position(|b| *b == separator)
}

/// The number N of the key `array/N/0`, where this is such a key and N is below 2^64. Takes no memory.
pub fn local_number(key: &[u8]) -> Option<u64>
    ensures some { IfSome result (λ n. (n < 2 ^ 64) × (local_key n ≡ key.now)) }
    ensures each { (n : ℕ) → n < 2 ^ 64 → local_key n ≡ key.now → result ≡ Some n }
{
    let Some(behind) = key.strip_prefix(b"array/") else {
        return None;
    };
    let Some(digits) = behind.strip_suffix(b"/0") else {
        return None;
    };
    number(digits)
}
