ghost use Rattle.std.specs.Prelude.{◌≡◌};

use cells::Name;
use chunk_forms::Damage;
use std::alloc::{AllocError, AllocFailed};

/// Why a view may not be read or written.
#[derive(Clone, Copy, Debug, PartialEq, Eq)]
pub enum ViewFault {
    /// This dimension is infinite.
    Unbounded { dim: u32 },
    /// The sizes up to this dimension have a product over 2^22.
    TooMany { dim: u32 },
    /// The first cell without a target, by its place in C order, leaves its array's shape, first along this dimension.
    OutOfRange { cell: u64, dim: u32 },
    /// The first cell without a target, by its place in C order, has no layer.
    Uncovered { cell: u64 },
}

/// Why a chunk was not looked at.
#[derive(Clone, Copy, Debug)]
pub enum LookError {
    /// The store failed, which event `event` says.
    StoreFailed { event: u64 },
    Memory,
}

impl From<AllocError> for LookError {
    ghost use Rattle.chunk_fetches.specs.declared.error.LookError.TheVariants as look;

    ghost from_gives = { λ _ e. e ≡ look.Memory };

    fn from(_: AllocError) -> Self {
        LookError::Memory
    }
}

impl<T: Drop> From<AllocFailed<T>> for LookError {
    ghost use Rattle.chunk_fetches.specs.declared.error.LookError.TheVariants as look;

    ghost from_gives = { λ _ e. e ≡ look.Memory };

    fn from(_: AllocFailed<T>) -> Self {
        LookError::Memory
    }
}

/// Why a view was not read.
#[derive(Debug, Drop)]
pub enum ReadError {
    View { fault: ViewFault },
    /// The store failed, which event `event` says.
    StoreFailed { event: u64 },
    /// The bytes under the key are no chunk of the array.
    Damaged { key: Name, cause: Damage },
    /// A cell lay outside its array's shape when its chunk was read. The least key of the metadata of such an array, and the number
    /// of the event that had given the array its shape.
    Shrunk { key: Name, now: u64 },
    Memory,
}

impl From<AllocError> for ReadError {
    ghost use Rattle.chunk_fetches.specs.declared.error.ReadError.TheVariants as read;

    ghost from_gives = { λ _ e. e ≡ read.Memory };

    fn from(_: AllocError) -> Self {
        ReadError::Memory
    }
}

impl<T: Drop> From<AllocFailed<T>> for ReadError {
    ghost use Rattle.chunk_fetches.specs.declared.error.ReadError.TheVariants as read;

    ghost from_gives = { λ _ e. e ≡ read.Memory };

    fn from(_: AllocFailed<T>) -> Self {
        ReadError::Memory
    }
}
