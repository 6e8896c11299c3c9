// A script as bytes.
ghost use Rattle.std.specs.Prelude.{◌≡◌, ◌≤◌, ◌<◌, ℕ, List, Some, IfOk, IsErrOf, length};
ghost use Rattle.kv_face.specs.Streams.{WhereTold, Rises, IsMissing, script_of};

use crate::streams::Scripts;
use std::alloc::{AllocError, Global};
use thiserror::Error;

// The bytes that a script may have.
const LONGEST_SCRIPT: usize = 1 << 26;

const PIECE: usize = 4096;

/// Why a script was not read.
#[derive(Clone, Copy, Debug, PartialEq, Eq, Error)]
pub enum ReadError {
    /// The scripts failed, or have none of that name. Their count of faults rose, unless it stands at its last value.
    #[error("the script can't be read")]
    Failed,
    /// The script has more than 2^26 bytes.
    #[error("the script is too long")]
    TooLong,
    #[error("out of memory")]
    Memory,
}

impl From<AllocError> for ReadError {
    ghost use Rattle.kv_face.specs.declared.reading.ReadError.TheVariants as read;

    ghost from_gives = { λ _ e. e ≡ read.Memory };

    fn from(_: AllocError) -> Self {
        ReadError::Memory
    }
}

/// All bytes of a script, which has at most 2^26.
///
/// # Errors
/// `Failed` where there is no such script or it can't be read; else `TooLong`, or `Memory`, whichever comes first.
pub fn read_script<S: Scripts>(
    alloc: Global,
    scripts: &mut S,
    name: &str,
) -> Result<Vec<u8>, ReadError>
    ensures all { IfOk result (λ v. WhereTold (script_of (S.contents scripts.old) name.now) (λ bytes.
        v.items ≡ bytes)) }
    ensures short { IfOk result (λ v. length v.items ≤ 67108864) }
    ensures long { IsErrOf result ReadError.TooLong
        → WhereTold (script_of (S.contents scripts.old) name.now) (λ bytes. 67108864 < length bytes) }
    ensures missing { IsMissing (S.contents scripts.old) name.now → result ≡ Err ReadError.Failed }
    ensures contents { S.contents scripts.new ≡ S.contents scripts.old }
    ensures cause { Rises (S.faults scripts.old) (S.faults scripts.new) (IsErrOf result ReadError.Failed) }
{
    if scripts.select(name).is_err() {
        return Err(ReadError::Failed);
    }
    let mut bytes = Vec::new(alloc);
    let mut buf = [0u8; PIECE];
    loop {
        let Ok(n) = scripts.next(&mut buf) else {
            return Err(ReadError::Failed);
        };
        if n == 0 {
            return Ok(bytes);
        }
        if n > LONGEST_SCRIPT - bytes.len() {
            return Err(ReadError::TooLong);
        }
        let (front, _) = buf.split_at(n);
        bytes.extend_from_slice(front)?;
    }
}
