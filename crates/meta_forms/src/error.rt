ghost use Rattle.std.specs.Prelude.{◌≡◌, ◌≢◌, Ok, Err, IfOk, IfErr};

use cells::Name;
use std::alloc::{AllocError, Global};
use thiserror::Error;

/// Why bytes are no metadata, the first cause that holds. `name` is the member at fault.
#[derive(Debug, PartialEq, Eq, Drop, Error)]
pub enum MetaError {
    /// The bytes are no JSON object.
    #[error("the metadata is no JSON object")]
    NotJson,
    /// The member is missing, or it has a value that it may never have.
    #[error("a bad member in the metadata")]
    BadMember { name: Name },
    /// The member has a value that the format knows and this workspace doesn't read.
    #[error("a member of the metadata has an unsupported value")]
    Unsupported { name: Name },
    /// An allocation failed.
    #[error("out of memory")]
    Memory,
}

/// What is wrong with one member.
#[derive(Clone, Copy, Debug, PartialEq, Eq)]
pub enum Fault {
    /// It is missing, or it has a value that it may never have.
    Bad,
    /// It has a value that the format knows and this workspace doesn't read.
    Unsupported,
}

impl From<AllocError> for MetaError {
    ghost use Rattle.meta_forms.specs.declared.error.MetaError.TheVariants as meta;

    ghost from_gives = { λ _ e. e ≡ meta.Memory };

    fn from(_: AllocError) -> Self {
        MetaError::Memory
    }
}
