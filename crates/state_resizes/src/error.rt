ghost use Rattle.std.specs.Prelude.{◌≡◌};
ghost use Rattle.state_resizes.specs.Refusals.{answer_by, refusal_by};

use cells::Name;
use chunk_forms::Damage;
use chunk_plans::{ChangeError, FetchError};

/// Why an array was not resized.
#[derive(Debug, Drop)]
pub enum ResizeError {
    /// More than 65,536 chunks have a cell that is cut, after `at` events.
    TooManyChunks { at: u64 },
    /// The store can't change `keys` keys together: the metadata's, and those of the chunks that have a cell that is cut.
    NotAtomic { keys: u64 },
    /// The bytes of a chunk that is cut in part are no chunk of the array.
    Damaged { key: Name, cause: Damage },
    /// The store failed, which event `event` says.
    StoreFailed { event: u64 },
    /// An allocation failed.
    Memory,
}

/// The answer of a change of the store.
pub(crate) fn answer_of(answer: Result<u64, ChangeError>) -> Result<u64, ResizeError>
    ensures { result ≡ answer_by answer }
{
    match answer {
        Ok(event) => Ok(event),
        Err(ChangeError::StoreFailed { event }) => Err(ResizeError::StoreFailed { event }),
        Err(ChangeError::Memory) => Err(ResizeError::Memory),
    }
}

/// The refusal of a chunk that was not read.
pub(crate) fn refusal_of(error: FetchError) -> ResizeError
    ensures { result ≡ refusal_by error }
{
    match error {
        FetchError::StoreFailed { event } => ResizeError::StoreFailed { event },
        FetchError::Damaged { key, cause } => ResizeError::Damaged { key, cause },
        FetchError::Memory => ResizeError::Memory,
    }
}
