use std::alloc::AllocError;
use thiserror::Error;

/// Why views aren't joined.
#[derive(Clone, Copy, Debug, PartialEq, Eq, Error)]
pub enum JoinError {
    /// Casts and stacks would be nested more than 16 deep.
    #[error("casts and stacks would be nested more than 16 deep")]
    Depth,
    /// This layer has another dtype or rank than the first.
    #[error("layer {layer} has another dtype or rank than the first")]
    Layers { layer: u32 },
    /// The axis is no dimension of the layers; of a stack, no place for a new one.
    #[error("the axis is none of the layers")]
    Axis,
    /// There would be more than 32 dimensions.
    #[error("the rank would pass 32")]
    Rank,
    /// This layer's interval on the axis is infinite.
    #[error("layer {layer} is infinite along the axis")]
    Unbounded { layer: u32 },
    /// The moved interval of this layer leaves the finite indices, or an offset of its moved transform 64 bits.
    #[error("layer {layer} can't be moved so far")]
    Overflow { layer: u32 },
    #[error("out of memory")]
    Memory,
}

impl From<AllocError> for JoinError {
    ghost use Rattle.std.specs.Prelude.{◌≡◌};
    ghost use Rattle.layer_join.specs.declared.error.JoinError.TheVariants.{Memory};

    ghost from_gives = { λ _ e. e ≡ Memory };

    fn from(_: AllocError) -> JoinError {
        JoinError::Memory
    }
}
