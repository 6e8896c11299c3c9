ghost use Rattle.std.specs.Prelude.{◌≡◌};

use cells::Name;
use spec_forms::SpecError;
use std::alloc::{AllocError, AllocFailed};
use step_forms::StepsError;
use thiserror::Error;

/// Why a line is no command, the first that holds.
#[derive(Debug, PartialEq, Eq, Drop, Error)]
pub enum LineError {
    /// The bytes are no JSON.
    #[error("the line is no JSON")]
    NotJson,
    /// The value isn't an object with exactly one of the members that name a command.
    #[error("the line is no command")]
    NotCommand,
    /// The least member in byte order that is unknown for the command, missing or of a wrong form; behind `transform/` and `begin/`
    /// what is at fault within.
    #[error("a member of the line is at fault")]
    Member { path: Name },
    /// `spec` is no Spec that this workspace opens.
    #[error("the spec of the line is at fault")]
    Spec { cause: SpecError },
    /// `steps` is no list of steps.
    #[error("a step of the line is at fault")]
    Steps { cause: StepsError },
    #[error("out of memory")]
    Memory,
}

impl From<AllocError> for LineError {
    ghost use Rattle.line_parts.specs.declared.error.LineError.TheVariants as line;

    ghost from_gives = { λ _ e. e ≡ line.Memory };

    fn from(_: AllocError) -> Self {
        LineError::Memory
    }
}

impl<T: Drop> From<AllocFailed<T>> for LineError {
    ghost use Rattle.line_parts.specs.declared.error.LineError.TheVariants as line;

    ghost from_gives = { λ _ e. e ≡ line.Memory };

    fn from(_: AllocFailed<T>) -> Self {
        LineError::Memory
    }
}
