ghost use Rattle.std.specs.Prelude.{◌≡◌};

use cells::Name;
use std::alloc::{AllocError, AllocFailed};
use thiserror::Error;
use transform_composition::ComposeError;

/// Why a node of a plan gives no view.
#[derive(Clone, Copy, Debug, PartialEq, Eq)]
pub enum BuildCause {
    /// Its transform doesn't go into its domain.
    Transform { cause: ComposeError },
    /// Its layers have different dtypes or ranks, or another dtype than it names.
    Layers,
}

/// Why a plan gives no view.
#[derive(Debug, PartialEq, Eq, Drop, Error)]
pub enum BuildError {
    /// The node at the path is the first that is refused. For a transform the path is that of the node's `transform`.
    #[error("a node of a spec is refused")]
    Refused { path: Name, cause: BuildCause },
    #[error("out of memory")]
    Memory,
}

impl From<AllocError> for BuildError {
    ghost use Rattle.spec_open.specs.declared.error.BuildError.TheVariants as build;

    ghost from_gives = { λ _ e. e ≡ build.Memory };

    fn from(_: AllocError) -> Self {
        BuildError::Memory
    }
}

impl<T: Drop> From<AllocFailed<T>> for BuildError {
    ghost use Rattle.spec_open.specs.declared.error.BuildError.TheVariants as build;

    ghost from_gives = { λ _ e. e ≡ build.Memory };

    fn from(_: AllocFailed<T>) -> Self {
        BuildError::Memory
    }
}
