ghost use Rattle.std.specs.Prelude.{◌≡◌};

use cells::Name;
use std::alloc::{AllocError, AllocFailed};
use thiserror::Error;

/// Why a value is no Spec that this workspace opens. The path names members and places in lists from outside in, with "/"
/// between them; that of the whole value is empty.
#[derive(Debug, PartialEq, Eq, Drop, Error)]
pub enum SpecError {
    /// What stands at the path is missing, unknown, or may never be so.
    #[error("a fault in a spec")]
    BadSpec { path: Name },
    /// What stands at the path is known to TensorStore, and this workspace doesn't do it.
    #[error("a spec that is not supported")]
    Unsupported { path: Name },
    #[error("out of memory")]
    Memory,
}

impl From<AllocError> for SpecError {
    ghost use Rattle.spec_forms.specs.declared.error.SpecError.TheVariants as spec;

    ghost from_gives = { λ _ e. e ≡ spec.Memory };

    fn from(_: AllocError) -> Self {
        SpecError::Memory
    }
}

impl<T: Drop> From<AllocFailed<T>> for SpecError {
    ghost use Rattle.spec_forms.specs.declared.error.SpecError.TheVariants as spec;

    ghost from_gives = { λ _ e. e ≡ spec.Memory };

    fn from(_: AllocFailed<T>) -> Self {
        SpecError::Memory
    }
}
