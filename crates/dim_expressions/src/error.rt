ghost use Rattle.std.specs.Prelude.{◌≡◌};

use dim_changes::Cause;
use std::alloc::AllocError;
use thiserror::Error;

/// Why steps can't be applied: the first step that fails, counted from 0, and why.
#[derive(Clone, Copy, Debug, PartialEq, Eq, Error)]
pub enum ApplyError {
    /// A selector names no dimension.
    #[error("step {step} selects an unknown dimension")]
    UnknownDim { step: u32 },
    /// A dimension is selected twice.
    #[error("step {step} selects a dimension twice")]
    RepeatedDim { step: u32 },
    /// The step can't be done.
    #[error("step {step}: {cause}")]
    Refused { step: u32, cause: Cause },
    #[error("out of memory")]
    Memory,
}

impl From<AllocError> for ApplyError {
    ghost use Rattle.dim_expressions.specs.declared.error.ApplyError.TheVariants.{Memory};

    ghost from_gives = { λ _ e. e ≡ Memory };

    fn from(_: AllocError) -> ApplyError {
        ApplyError::Memory
    }
}
