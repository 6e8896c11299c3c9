ghost use Rattle.std.specs.Prelude.{◌≡◌, ◌≢◌};

use cells::Name;
use std::alloc::{AllocError, AllocFailed, Global};
use thiserror::Error;

/// Why a value is no transform.
#[derive(Debug, PartialEq, Eq, Drop, Error)]
pub enum JsonError {
    /// The member at the path is the first that is wrong: the names of members and the numbers of outputs from outside
    /// in, with "/" between them. The path is empty where the value is no object.
    #[error("a faulty member in a transform")]
    BadMember { path: Name },
    /// An allocation failed.
    #[error("out of memory")]
    Memory,
}

impl From<AllocError> for JsonError {
    ghost use Rattle.transform_json.specs.declared.error.JsonError.TheVariants as json;

    ghost from_gives = { λ _ e. e ≡ json.Memory };

    fn from(_: AllocError) -> Self {
        JsonError::Memory
    }
}

impl<T: Drop> From<AllocFailed<T>> for JsonError {
    ghost use Rattle.transform_json.specs.declared.error.JsonError.TheVariants as json;

    ghost from_gives = { λ _ e. e ≡ json.Memory };

    fn from(_: AllocFailed<T>) -> Self {
        JsonError::Memory
    }
}

/// The fault of the member at a path.
pub(crate) fn bad_member(alloc: Global, path: &str) -> JsonError
    ensures { result ≢ JsonError.Memory → result ≡ JsonError.BadMember path.now }
{
    match String::from_str(alloc, path) {
        Ok(path) => JsonError::BadMember {
            path: Name::wrap(path),
        },
        Err(_) => JsonError::Memory,
    }
}
