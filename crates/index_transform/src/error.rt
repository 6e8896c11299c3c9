ghost use Rattle.std.specs.Prelude.{◌≡◌};

use std::alloc::AllocError;
use thiserror::Error;

/// Why a domain and maps make no transform.
#[derive(Clone, Copy, Debug, PartialEq, Eq, Error)]
pub enum TransformError {
    /// There are more than 32 dimensions or outputs, or not one label per dimension.
    #[error("a rank is over 32, or labels and dimensions differ in number")]
    BadRank,
    /// A label comes twice or has more than 64 bytes.
    #[error("a label comes twice or is too long")]
    BadLabel,
    /// The map of this output doesn't go from the dimensions.
    #[error("the map of output {output} doesn't fit the domain")]
    BadMap { output: u32 },
    #[error("out of memory")]
    Memory,
}

/// Why a transform has no value at an index vector.
#[derive(Clone, Copy, Debug, PartialEq, Eq, Error)]
pub enum AtError {
    /// The index lies outside the effective interval of this dimension.
    #[error("the index leaves dimension {dim}")]
    OutOfRange { dim: u32 },
    /// The number of this output is no finite index.
    #[error("the number of output {output} is no index")]
    Overflow { output: u32 },
    #[error("out of memory")]
    Memory,
}

/// Why the cells of a domain are not counted.
#[derive(Clone, Copy, Debug, PartialEq, Eq, Error)]
pub enum CountError {
    /// The interval of this dimension is infinite.
    #[error("dimension {dim} is infinite")]
    Unbounded { dim: u32 },
    /// The sizes up to this dimension have a product over 2^22.
    #[error("the cells up to dimension {dim} are too many")]
    TooMany { dim: u32 },
}

impl From<AllocError> for AtError {
    ghost use Rattle.index_transform.specs.declared.error.AtError.TheVariants.{Memory};

    ghost from_gives = { λ _ e. e ≡ Memory };

    fn from(_: AllocError) -> AtError {
        AtError::Memory
    }
}
