ghost use Rattle.std.specs.Prelude.{◌≡◌};

use cells::Name;
use history::Damage;
use std::alloc::AllocError;

/// Why a chunk was not read.
#[derive(Debug, Drop)]
pub enum FetchError {
    /// The store failed, which event `event` says.
    StoreFailed { event: u64 },
    /// The bytes under the key are no chunk of the array.
    Damaged { key: Name, cause: Damage },
    /// An allocation failed.
    Memory,
}

impl From<AllocError> for FetchError {
    ghost use Rattle.state_laws.specs.declared.error.FetchError.TheVariants as fetch;

    ghost from_gives = { λ _ e. e ≡ fetch.Memory };

    fn from(_: AllocError) -> Self {
        FetchError::Memory
    }
}

/// Why the store told nothing.
#[derive(Clone, Copy, Debug)]
pub enum GetError {
    /// The store failed, which event `event` says.
    Failed { event: u64 },
    Memory,
}

impl From<AllocError> for GetError {
    ghost use Rattle.state_laws.specs.declared.error.GetError.TheVariants as get;

    ghost from_gives = { λ _ e. e ≡ get.Memory };

    fn from(_: AllocError) -> Self {
        GetError::Memory
    }
}
