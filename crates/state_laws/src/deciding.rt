// What comes of a leaf, by the bytes at its metadata's key.
ghost use Rattle.std.specs.Prelude.{◌≡◌, ℕ, List, true, IfOk};
ghost use Rattle.array_homes.specs.Opening.{leaf_at, IsDecision, meta_in, IsFrom};
ghost use Rattle.history.specs.Metadata.{IsMetadata};
ghost use Rattle.history.specs.Wants.{is_asked_form};
ghost use Rattle.state_laws.specs.Openings.{IsRefusalOf};

use crate::opening::OpenError;
use array_homes::{Decided, OpeningRefusal, decide};
use bytes::Bytes;
use cells::copy_name;
use history::Want;
use std::alloc::Global;

/// What opening a leaf gives that the history doesn't have, by the bytes at its metadata's key.
pub fn decided(
    alloc: Global,
    want: &Want,
    may_open: bool,
    may_create: bool,
    bytes: Option<Bytes>,
) -> Result<Decided, OpeningRefusal>
    ensures outcome { (mount path : List ℕ) → IsDecision (leaf_at mount path want.now may_open may_create)
        bytes result }
    ensures source { IfOk result (λ d. IsFrom want.now bytes d) }
    ensures asked { IfOk result (λ d. is_asked_form want.now (meta_in d) ≡ true) }
    ensures valid { IfOk result (λ d. IsMetadata (meta_in d)) }
{
    match bytes {
        Some(bytes) => decide(alloc, want, may_open, may_create, Some(bytes.as_slice())),
        None => decide(alloc, want, may_open, may_create, None),
    }
}

/// The refusal, told after so many events.
pub fn refused(alloc: Global, key: &str, at: u64, refusal: OpeningRefusal) -> OpenError
    ensures { IsRefusalOf key.now at refusal result }
{
    match refusal {
        OpeningRefusal::BadMeta { cause } => match copy_name(alloc, key) {
            Ok(key) => OpenError::BadMeta { key, cause },
            Err(_) => OpenError::Memory,
        },
        OpeningRefusal::Exists => OpenError::Exists { at },
        OpeningRefusal::Mismatch { member } => OpenError::Mismatch { member, at },
        OpeningRefusal::NotFound => OpenError::NotFound { at },
        OpeningRefusal::BadWant { member } => OpenError::BadWant { member },
        OpeningRefusal::Memory => OpenError::Memory,
    }
}
