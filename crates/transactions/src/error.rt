ghost use Rattle.std.specs.Prelude.{◌≡◌};

use crate::txn::Txn;
use chunk_fetches::ViewFault;
use commits::CommitRefused;
use std::alloc::AllocError;

/// Why words were not staged.
#[derive(Clone, Copy, Debug)]
pub enum WriteError {
    View { fault: ViewFault },
    Memory,
}

impl From<AllocError> for WriteError {
    ghost use Rattle.transactions.specs.declared.error.WriteError.TheVariants as write;

    ghost from_gives = { λ _ e. e ≡ write.Memory };

    fn from(_: AllocError) -> Self {
        WriteError::Memory
    }
}

/// Why a transaction wasn't committed, and the transaction where it stands on.
#[derive(Drop)]
pub struct CommitError {
    pub why: CommitRefused,
    pub left: Option<Txn>,
}

impl From<AllocError> for CommitError {
    ghost use Rattle.std.specs.Prelude.{None};
    ghost use Rattle.commits.specs.declared.refused.CommitRefused.TheVariants as refused;

    ghost from_gives = { λ _ e. e ≡ record { why = refused.Memory; left = None } };

    fn from(_: AllocError) -> Self {
        CommitError {
            why: CommitRefused::Memory,
            left: None,
        }
    }
}
