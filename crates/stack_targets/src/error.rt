use std::alloc::{AllocError, AllocFailed};
use thiserror::Error;

/// Why the cells of a view don't all have targets.
#[derive(Clone, Copy, Debug, PartialEq, Eq, Error)]
pub enum TargetsError {
    /// The first cell without a target, by its place in C order, leaves its array's shape, first along this dimension.
    #[error("cell {cell} leaves the array's shape along dimension {dim}")]
    OutOfRange { cell: u64, dim: u32 },
    /// The first cell without a target, by its place in C order, has no layer.
    #[error("no layer has cell {cell}")]
    Uncovered { cell: u64 },
    #[error("out of memory")]
    Memory,
}

impl From<AllocError> for TargetsError {
    ghost use Rattle.std.specs.Prelude.{◌≡◌};
    ghost use Rattle.stack_targets.specs.declared.error.TargetsError.TheVariants.{Memory};

    ghost from_gives = { λ _ e. e ≡ Memory };

    fn from(_: AllocError) -> TargetsError {
        TargetsError::Memory
    }
}

impl<T: Drop> From<AllocFailed<T>> for TargetsError {
    ghost use Rattle.std.specs.Prelude.{◌≡◌};
    ghost use Rattle.stack_targets.specs.declared.error.TargetsError.TheVariants.{Memory};

    ghost from_gives = { λ _ e. e ≡ Memory };

    fn from(_: AllocFailed<T>) -> TargetsError {
        TargetsError::Memory
    }
}
