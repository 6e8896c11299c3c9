use std::alloc::AllocError;
use thiserror::Error;
use transform_composition::ComposeError;

/// Why a cell of a view has no target.
#[derive(Clone, Copy, Debug, PartialEq, Eq, Error)]
pub enum TargetError {
    /// The array's index vector lies outside its shape, first along this dimension.
    #[error("the cell leaves the array's shape along dimension {dim}")]
    OutOfRange { dim: u32 },
    /// No layer of a stack has the cell.
    #[error("no layer has the cell")]
    Uncovered,
    #[error("out of memory")]
    Memory,
}

impl From<AllocError> for TargetError {
    ghost use Rattle.std.specs.Prelude.{◌≡◌};
    ghost use Rattle.stack_driver.specs.declared.error.TargetError.TheVariants.{Memory};

    ghost from_gives = { λ _ e. e ≡ Memory };

    fn from(_: AllocError) -> TargetError {
        TargetError::Memory
    }
}

/// Why views don't stack.
#[derive(Clone, Copy, Debug, PartialEq, Eq, Error)]
pub enum StackError {
    /// This layer has another dtype or rank than the first.
    #[error("layer {layer} has another dtype or rank than the first")]
    Layers { layer: u32 },
    #[error("out of memory")]
    Memory,
}

impl From<AllocError> for StackError {
    ghost use Rattle.std.specs.Prelude.{◌≡◌};
    ghost use Rattle.stack_driver.specs.declared.error.StackError.TheVariants.{Memory};

    ghost from_gives = { λ _ e. e ≡ Memory };

    fn from(_: AllocError) -> StackError {
        StackError::Memory
    }
}

/// Why a view doesn't take a new shape.
#[derive(Clone, Copy, Debug, PartialEq, Eq, Error)]
pub enum RenewError {
    /// Through casts, the view is no leaf.
    #[error("the view is no array")]
    NotArray,
    /// The transform doesn't go into the array's domain.
    #[error("{cause}")]
    Refused { cause: ComposeError },
    #[error("out of memory")]
    Memory,
}

impl From<AllocError> for RenewError {
    ghost use Rattle.std.specs.Prelude.{◌≡◌};
    ghost use Rattle.stack_driver.specs.declared.error.RenewError.TheVariants.{Memory};

    ghost from_gives = { λ _ e. e ≡ Memory };

    fn from(_: AllocError) -> RenewError {
        RenewError::Memory
    }
}
