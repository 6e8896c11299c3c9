// All scripts of a run, one after another.
ghost use Rattle.std.specs.Prelude.{◌≡◌, ◌≤◌, ◌⊎◌, ◌<◌, ℕ, List, Contains, length, Some, IfOk, IfErr, IsErr, IsErrAnd};
ghost use Rattle.std.specs.FinMap as finmap;
ghost use Rattle.kv_face.specs.Streams.{WhereTold, Rises, IsMissing};
ghost use Rattle.script_streams.specs.Reading.{AreScripts, AreShort, IsCause, IsFailure, names_in, texts_in};
ghost use Rattle.script_streams.specs.Places.{IsCauseAt};
ghost use Rattle.script_streams.specs.Asking.{IsAnswerAt, IsRun};

use crate::reader::Reader;
use kv_face::ReadError;
use std::alloc::{AllocError, AllocFailed, Global};
use thiserror::Error;

// The bytes that all scripts together may have.
const MOST_BYTES: usize = 1 << 28;

/// Why scripts were not read. Places are those of the names, 0 for the first.
#[derive(Clone, Copy, Debug, PartialEq, Eq, Error)]
pub enum Unread {
    /// The scripts failed, or have none of the name at this place. Their count of faults rose, unless it stands at its last value.
    #[error("the script at place {place} can't be read")]
    Failed { place: u32 },
    /// The script at this place has more than 2^26 bytes, or those up to it have more than 2^28 together.
    #[error("the script at place {place} is too long")]
    TooLong { place: u32 },
    #[error("out of memory")]
    Memory,
}

impl From<AllocError> for Unread {
    ghost use Rattle.script_streams.specs.declared.reading.Unread.TheVariants as unread;

    ghost from_gives = { λ _ e. e ≡ unread.Memory };

    fn from(_: AllocError) -> Self {
        Unread::Memory
    }
}

impl<T: Drop> From<AllocFailed<T>> for Unread {
    ghost use Rattle.script_streams.specs.declared.reading.Unread.TheVariants as unread;

    ghost from_gives = { λ _ e. e ≡ unread.Memory };

    fn from(_: AllocFailed<T>) -> Self {
        Unread::Memory
    }
}

/// The scripts of all names, in the order of the names. A script has at most 2^26 bytes, and all together have at most 2^28.
///
/// # Errors
/// Script by script: `Failed` where there is none of the name or it can't be read, `TooLong` where it passes a limit, by itself or
/// together with those before it; `Memory` at any time.
pub fn read_scripts<S: Reader>(
    alloc: Global,
    scripts: &mut S,
    names: &[String],
) -> Result<Vec<Vec<u8>>, Unread>
    requires { length names.now ≤ 1024 }
    // Where scripts are told, each name has one, and these are they, in the order of the names.
    ensures read { IfOk result (λ read. WhereTold (S.contents scripts.old) (λ told.
        AreScripts told (names_in names.now) (texts_in read.items))) }
    ensures count { IfOk result (λ read. length read.items ≡ length names.now) }
    ensures short { IfOk result (λ read. AreShort (texts_in read.items)) }
    // A script that is missing among told ones is never passed over.
    ensures missing { (name : List ℕ) → Contains (names_in names.now) name → IsMissing (S.contents scripts.old) name
        → IsErr result }
    // Scripts before the place of an error can be read; too long is only what passes a limit.
    ensures cause { IfErr result (IsCause (S.contents scripts.old) (names_in names.now)) }
    // Scripts fail only where their count of faults rose.
    ensures faults { Rises (S.faults scripts.old) (S.faults scripts.new) (IsErrAnd result IsFailure) }
    ensures contents { S.contents scripts.new ≡ S.contents scripts.old }
    // The names are asked for in their order, each once and none behind the first whose text wasn't given; the answer is that of the last.
    ensures run { IsRun S.gives scripts.old (names_in names.now) result scripts.new }
{
    let mut read = Vec::with_capacity(alloc, names.len())?;
    let mut room = MOST_BYTES;
    for place in 0..names.len() {
        let bytes = read_at(alloc, scripts, names[place].as_str(), room, place as u32)?;
        room -= bytes.len();
        read.push(bytes)?;
    }
    Ok(read)
}

// The script of a name, which stands at this place, where it has no more bytes than there is room for.
fn read_at<S: Reader>(
    alloc: Global,
    scripts: &mut S,
    name: &str,
    room: usize,
    place: u32,
) -> Result<Vec<u8>, Unread>
    ensures read { IfOk result (λ v. WhereTold (S.contents scripts.old) (λ told.
        finmap.get told name.now ≡ Some v.items)) }
    ensures short { IfOk result (λ v. (length v.items ≤ 67108864) × (length v.items ≤ room)) }
    ensures cause { IfErr result (IsCauseAt (S.contents scripts.old) name.now room place) }
    ensures faults { Rises (S.faults scripts.old) (S.faults scripts.new) (IsErrAnd result IsFailure) }
    ensures contents { S.contents scripts.new ≡ S.contents scripts.old }
    ensures answer { IsAnswerAt S.gives scripts.old name.now room place result scripts.new }
{
    match scripts.read(alloc, name) {
        Ok(bytes) if bytes.len() > room => Err(Unread::TooLong { place }),
        Ok(bytes) => Ok(bytes),
        Err(ReadError::Failed) => Err(Unread::Failed { place }),
        Err(ReadError::TooLong) => Err(Unread::TooLong { place }),
        Err(ReadError::Memory) => Err(Unread::Memory),
    }
}
