// What opening a leaf gives.
ghost use Rattle.std.specs.Prelude.{◌≡◌, ◌≢◌, ℕ, List, Bool, Some, Err, Ok, IfOk, option_map, true};
ghost use Rattle.history.specs.Made.{form_made};
ghost use Rattle.history.specs.Metadata.{IsMetadata};
ghost use Rattle.history.specs.Wants.{is_asked_form, mismatch_of};
ghost use Rattle.history.specs.Arrays.{Known};
ghost use Rattle.history.specs.Leaves.{Stored};
ghost use Rattle.history.specs.Outcomes.{outcome_at, unless_differs, there};
ghost use Rattle.array_homes.specs.Opening.{leaf_at, IsDecision, meta_in, IsChecked, IsFoundAs, IsFrom};

use crate::forms::first_form;
use crate::read::{FormReadError, MetaCause, read_form};
use history::{Form, Home, MadeError, Member, Want, made, mismatch};
use std::alloc::Global;

/// A new array's metadata.
#[derive(Debug, Drop)]
pub enum Decided {
    /// The store has it.
    Found { form: Form },
    /// It is to be made.
    Made { form: Form },
}

/// Why a leaf that the history doesn't have isn't opened.
#[derive(Debug, Drop)]
pub enum OpeningRefusal {
    /// The bytes at the metadata's key are no metadata of the format that is asked.
    BadMeta { cause: MetaCause },
    /// It is found, and may not be opened.
    Exists,
    /// It is found, and this member differs from what is asked.
    Mismatch { member: &'static str },
    /// It isn't found, and may not be made.
    NotFound,
    /// It is to be made, and this member is neither asked nor has a default.
    BadWant { member: Member },
    /// An allocation failed.
    Memory,
}

/// Why an array of the history isn't what is asked.
#[derive(Clone, Copy, Debug)]
pub enum CheckError {
    /// It may not be opened.
    Exists,
    /// This member differs from what is asked.
    Mismatch { member: &'static str },
    /// An allocation failed.
    Memory,
}

/// What opening a leaf gives that the history doesn't have, where the store has these bytes at its metadata's key, or none.
///
/// # Errors
/// With bytes: `BadMeta` where they are no metadata of the format that is asked, `Exists` where the array may not be opened,
/// `Mismatch` with the first member that differs from what is asked. Without: `NotFound` where it may not be made, `BadWant` with
/// the first member that isn't determined. `Memory` where an allocation failed.
pub fn decide(
    alloc: Global,
    want: &Want,
    may_open: bool,
    may_create: bool,
    bytes: Option<&[u8]>,
) -> Result<Decided, OpeningRefusal>
    ensures outcome { (mount path : List ℕ) → IsDecision (leaf_at mount path want.now may_open may_create)
        (option_map (λ b. b.now) bytes.entry) result }
    ensures source { IfOk result (λ d. IsFrom want.now (option_map (λ b. b.now) bytes.entry) d) }
    ensures asked { IfOk result (λ d. is_asked_form want.now (meta_in d) ≡ true) }
    ensures valid { IfOk result (λ d. IsMetadata (meta_in d)) }
{
    match bytes {
        Some(bytes) => stored(alloc, want, may_open, bytes),
        None => missing(alloc, want, may_create),
    }
}

fn stored(
    alloc: Global,
    want: &Want,
    may_open: bool,
    bytes: &[u8],
) -> Result<Decided, OpeningRefusal>
    ensures outcome { (mount path : List ℕ) (may_create : Bool)
        → IsDecision (leaf_at mount path want.now may_open may_create) (Some bytes.now) result }
    ensures source { IfOk result (λ d. IsFrom want.now (Some bytes.now) d) }
    ensures asked { IfOk result (λ d. is_asked_form want.now (meta_in d) ≡ true) }
    ensures valid { IfOk result (λ d. IsMetadata (meta_in d)) }
{
    match read_form(alloc, want, bytes) {
        Ok(form) => found(want, may_open, form),
        Err(FormReadError::Bad { cause }) => Err(OpeningRefusal::BadMeta { cause }),
        Err(FormReadError::Memory) => Err(OpeningRefusal::Memory),
    }
}

fn found(want: &Want, may_open: bool, form: Form) -> Result<Decided, OpeningRefusal>
    requires asked { is_asked_form want.now form ≡ true }
    requires valid { IsMetadata form }
    ensures outcome { IsFoundAs want.now may_open form result }
    ensures source { IfOk result (λ d. d ≡ Decided.Found form) }
    ensures asked { IfOk result (λ d. is_asked_form want.now (meta_in d) ≡ true) }
    ensures valid { IfOk result (λ d. IsMetadata (meta_in d)) }
{
    if !may_open {
        return Err(OpeningRefusal::Exists);
    }
    match mismatch(want, &form, form.shape()) {
        Some(member) => Err(OpeningRefusal::Mismatch { member }),
        None => Ok(Decided::Found { form }),
    }
}

fn missing(alloc: Global, want: &Want, may_create: bool) -> Result<Decided, OpeningRefusal>
    ensures outcome { (mount path : List ℕ) (may_open : Bool)
        → IsDecision (leaf_at mount path want.now may_open may_create) None result }
    ensures source { IfOk result (λ d. IsFrom want.now None d) }
    ensures asked { IfOk result (λ d. is_asked_form want.now (meta_in d) ≡ true) }
    ensures valid { IfOk result (λ d. IsMetadata (meta_in d)) }
{
    if !may_create {
        return Err(OpeningRefusal::NotFound);
    }
    match made(alloc, want) {
        Ok(form) => new(form),
        Err(MadeError::Undetermined { member }) => Err(OpeningRefusal::BadWant { member }),
        Err(MadeError::Memory) => Err(OpeningRefusal::Memory),
    }
}

fn new(form: Form) -> Result<Decided, OpeningRefusal>
    ensures value { result ≡ Ok (Decided.Made form) }
    ensures valid { IsMetadata form }
{
    // A look at the metadata, by which the contract knows its rules.
    let _ = form.chunk_shape();
    Ok(Decided::Made { form })
}

/// Whether an array of the history is what is asked, while it has this shape, in cells.
///
/// # Errors
/// `Exists` where it may not be opened, then `Mismatch` with the first member that differs from what is asked. `Memory` where an
/// allocation failed.
pub fn check(
    alloc: Global,
    want: &Want,
    may_open: bool,
    home: &Home,
    shape: &[u64],
) -> Result<(), CheckError>
    ensures { (mount path : List ℕ) (may_create : Bool) (stored : Stored) (k : Known) → k.info.home ≡ home.now
        → k.shape ≡ shape.now
        → IsChecked k result (outcome_at (leaf_at mount path want.now may_open may_create) stored (Some k)) }
{
    if !may_open {
        return Err(CheckError::Exists);
    }
    match first_form(alloc, home) {
        Ok(form) => differs(want, &form, shape),
        Err(_) => Err(CheckError::Memory),
    }
}

fn differs(want: &Want, form: &Form, shape: &[u64]) -> Result<(), CheckError>
    ensures { (k : Known) → IsChecked k result (unless_differs (mismatch_of want.now form.now shape.now) (there k)) }
{
    match mismatch(want, form, shape) {
        Some(member) => Err(CheckError::Mismatch { member }),
        None => Ok(()),
    }
}
