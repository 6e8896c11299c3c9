ghost use Rattle.std.specs.Prelude.{◌≡◌};
ghost use Rattle.commits.specs.Refused.{unmade, unplanned};

use cells::{List, Name};
use chunk_forms::Damage;
use chunk_plans::{ChangeError, FetchError};
use std::alloc::{AllocError, Global};

/// Why a commit isn't done, or not whole. Only `StoreFailed` and `Memory` may leave events behind.
#[derive(Debug, Drop)]
pub enum CommitRefused {
    /// A chunk that was read has a later generation now: the least key of such a chunk in byte order, with the generation at which it
    /// was read and the one that it has. The transaction is over.
    Conflict { key: Name, read: u64, now: u64 },
    /// A cell that is written lies outside its array's shape now: the least key of such an array's metadata in byte order, with the
    /// number of the event that gave the shape. The transaction is over.
    Shrunk { key: Name, now: u64 },
    /// All changes were asked to be made together, and the store can't: so many keys change that aren't local. The transaction is
    /// over.
    NotAtomic { keys: u64 },
    /// The least key in byte order of a chunk that is written in part and whose stored bytes are none of its array's. Nothing was
    /// changed.
    Damaged { key: Name, cause: Damage },
    /// The store failed, which the event of this number tells. The events of the keys that were done before stand.
    StoreFailed { event: u64, done: List<u64> },
    /// Memory was wanting. The events of the keys that were done before stand.
    Memory,
}

impl From<AllocError> for CommitRefused {
    ghost use Rattle.commits.specs.declared.refused.CommitRefused.TheVariants as refused;

    ghost from_gives = { λ _ e. e ≡ refused.Memory };

    fn from(_: AllocError) -> Self {
        CommitRefused::Memory
    }
}

/// A chunk that can't be planned, before anything is done.
pub(crate) fn unplanned(alloc: Global, error: FetchError) -> CommitRefused
    ensures { result ≡ unplanned error }
{
    match error {
        FetchError::StoreFailed { event } => CommitRefused::StoreFailed {
            event,
            done: List::wrap(Vec::new(alloc)),
        },
        FetchError::Damaged { key, cause } => CommitRefused::Damaged { key, cause },
        FetchError::Memory => CommitRefused::Memory,
    }
}

/// A change that isn't made, once the events of these numbers were done.
pub(crate) fn unmade(done: Vec<u64>, error: ChangeError) -> CommitRefused
    ensures { result ≡ unmade done.items error }
{
    match error {
        ChangeError::StoreFailed { event } => CommitRefused::StoreFailed {
            event,
            done: List::wrap(done),
        },
        ChangeError::Memory => CommitRefused::Memory,
    }
}
