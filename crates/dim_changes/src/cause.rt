ghost use Rattle.std.specs.Prelude.{◌≡◌, ◌<◌, None};
ghost use Rattle.dim_changes.specs.Causes.{turn_of, with_cause};

use std::alloc::AllocError;
use thiserror::Error;

// How early a cause is tried.
fn turn_of(cause: Cause) -> u8
    ensures { result ≡ turn_of cause }
{
    match cause {
        Cause::Count => 0,
        Cause::Rank => 1,
        Cause::Target => 2,
        Cause::Label => 3,
        Cause::ZeroStep => 4,
        Cause::Unbounded => 5,
        Cause::BadOrder => 6,
        Cause::OutOfRange { .. } => 7,
        Cause::IndexDim => 8,
        Cause::Overflow => 9,
        Cause::TooLarge => 10,
    }
}

/// The cause that counts, of one and that of what comes later.
pub fn with_cause(cause: Option<Cause>, later: Option<Cause>) -> Option<Cause>
    ensures { result ≡ with_cause cause later }
{
    match (cause, later) {
        (None, later) => later,
        (Some(c), None) => Some(c),
        (Some(c), Some(d)) if turn_of(d) < turn_of(c) => Some(d),
        (Some(c), Some(_)) => Some(c),
    }
}

/// Why a step can't be done.
///
/// The causes are tried in this order, each for all selected dimensions.
#[derive(Clone, Copy, Debug, PartialEq, Eq, Error)]
pub enum Cause {
    /// A list has another length than the selection; `diagonal` or `vindex` selects no dimension; the lists of `vindex`
    /// differ in length.
    #[error("numbers and dimensions differ in count")]
    Count,
    /// There would be more than 32 dimensions.
    #[error("the rank would pass 32")]
    Rank,
    /// A target position is none of the result, or comes twice.
    #[error("a target is no position, or comes twice")]
    Target,
    /// A label has more than 64 bytes, or one that isn't empty would come twice.
    #[error("a label is too long, or would come twice")]
    Label,
    /// A stride or a step is 0.
    #[error("the step is 0")]
    ZeroStep,
    /// A bound that has to be finite isn't.
    #[error("a bound is infinite")]
    Unbounded,
    /// The start of a slice lies past its stop.
    #[error("the start lies past the stop")]
    BadOrder,
    /// An index lies outside the interval whose effective bounds are `lo` and `hi`.
    #[error("an index leaves {lo} to {hi}")]
    OutOfRange { lo: i64, hi: i64 },
    /// An index array depends on a dimension whose bound would become implicit.
    #[error("an index array depends on the dimension")]
    IndexDim,
    /// A bound leaves the finite indices, or an offset or a stride 64 bits.
    #[error("a number passes its range")]
    Overflow,
    /// An index array has more than 2^22 entries.
    #[error("an index array is too large")]
    TooLarge,
}

/// Why one step can't be done, or that there is no memory for it.
#[derive(Clone, Copy, Debug, PartialEq, Eq)]
pub enum Fault {
    Refused { cause: Cause },
    Memory,
}

impl From<AllocError> for Fault {
    ghost use Rattle.dim_changes.specs.declared.cause.Fault.TheVariants.{Memory};

    ghost from_gives = { λ _ e. e ≡ Memory };

    fn from(_: AllocError) -> Fault {
        Fault::Memory
    }
}
