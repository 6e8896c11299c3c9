ghost use Rattle.std.specs.Prelude.{◌≡◌};

use std::alloc::AllocError;
use thiserror::Error;

/// Why two transforms don't compose.
#[derive(Clone, Copy, Debug, PartialEq, Eq, Error)]
pub enum ComposeError {
    /// The inner transform has another number of outputs than the outer one has dimensions.
    #[error("outputs and dimensions differ in number")]
    Rank,
    /// By this output a bound, an offset or a stride passes its range.
    #[error("output {output} passes the range of numbers")]
    Overflow { output: u32 },
    /// Not every number of this inner output lies in the outer interval.
    #[error("output {output} leaves the outer interval")]
    Outside { output: u32 },
    /// The index array of this output would have more than 2^22 entries.
    #[error("the index array of output {output} is too large")]
    TooLarge { output: u32 },
    #[error("out of memory")]
    Memory,
}

impl From<AllocError> for ComposeError {
    ghost use Rattle.transform_composition.specs.declared.error.ComposeError.TheVariants.{Memory};

    ghost from_gives = { λ _ e. e ≡ Memory };

    fn from(_: AllocError) -> ComposeError {
        ComposeError::Memory
    }
}
