ghost use Rattle.std.specs.Prelude.{◌≡◌};

use std::alloc::{AllocError, AllocFailed};
use thiserror::Error;

/// A call of the outside failed. The object's count of faults rose, unless it stood at its last value.
#[derive(Clone, Copy, Debug, PartialEq, Eq, Error)]
#[error("the call failed")]
pub struct Failed;

/// Why a call of a store was refused.
#[derive(Clone, Copy, Debug, PartialEq, Eq, Error)]
pub enum KvError {
    /// The store failed. Its count of faults rose, unless it stood at its last value.
    #[error("the store failed")]
    Failed,
    #[error("out of memory")]
    Memory,
}

impl From<AllocError> for KvError {
    ghost use Rattle.kv_face.specs.declared.error.KvError.TheVariants as kv;

    ghost from_gives = { λ _ e. e ≡ kv.Memory };

    fn from(_: AllocError) -> Self {
        KvError::Memory
    }
}

impl<T: Drop> From<AllocFailed<T>> for KvError {
    ghost use Rattle.kv_face.specs.declared.error.KvError.TheVariants as kv;

    ghost from_gives = { λ _ e. e ≡ kv.Memory };

    fn from(_: AllocFailed<T>) -> Self {
        KvError::Memory
    }
}
