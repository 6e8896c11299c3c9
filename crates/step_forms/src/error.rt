ghost use Rattle.std.specs.Prelude.{◌≡◌};

use std::alloc::AllocError;
use thiserror::Error;

/// Why a value is no list of steps.
#[derive(Clone, Copy, Debug, PartialEq, Eq, Error)]
pub enum StepsError {
    /// The step of this number, the first with 0, has no form; 0 also where the value is no list.
    #[error("step {step} has no form")]
    BadStep { step: u32 },
    #[error("out of memory")]
    Memory,
}

impl From<AllocError> for StepsError {
    ghost use Rattle.step_forms.specs.declared.error.StepsError.TheVariants.{Memory};

    ghost from_gives = { λ _ e. e ≡ Memory };

    fn from(_: AllocError) -> StepsError {
        StepsError::Memory
    }
}
