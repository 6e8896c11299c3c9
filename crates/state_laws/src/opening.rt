// What opening an array gives.
ghost use Rattle.std.specs.Prelude.{◌≡◌};

use array_homes::MetaCause;
use cells::Name;
use history::Member;
use stack_driver::ArrayRef;
use std::alloc::AllocError;

/// An array that was opened, and the number of the event that says so, where one was added.
#[derive(Debug, Drop)]
pub struct Opened {
    pub array: ArrayRef,
    pub event: Option<u64>,
}

/// Why an array was not opened, the first that holds. `at` is the number of events.
#[derive(Debug, Drop)]
pub enum OpenError {
    /// An array of the run lies above or below the path, at `path`, mount and all; the least of these in byte order.
    PathTaken { path: Name, at: u64 },
    /// The store failed, which event `event` says.
    StoreFailed { event: u64 },
    /// The bytes under the metadata's key are no metadata of the format that is asked.
    BadMeta { key: Name, cause: MetaCause },
    /// It is found, and may not be opened.
    Exists { at: u64 },
    /// It is found, and this member differs from what is asked.
    Mismatch { member: &'static str, at: u64 },
    /// It isn't found, and may not be made.
    NotFound { at: u64 },
    /// It is to be made, and this member is neither asked nor has a default.
    BadWant { member: Member },
    Memory,
}

impl From<AllocError> for OpenError {
    ghost use Rattle.state_laws.specs.declared.opening.OpenError.TheVariants as open_error;

    ghost from_gives = { λ _ e. e ≡ open_error.Memory };

    fn from(_: AllocError) -> Self {
        OpenError::Memory
    }
}
