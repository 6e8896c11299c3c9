// A part of a dimension.
ghost use Rattle.std.specs.Prelude.{◌≡◌, ◌<◌, Ok};
ghost use Rattle.std.specs.List.{All};
ghost use Rattle.dim_changes.specs.Cuts.{slice_cause, sliced_by, slices_count};
ghost use Rattle.step_forms.specs.Given.{part_for, IsIndexPart};

use crate::cause::Cause;
use crate::cut::Cut;
use index_intervals::{Interval, SliceError};
use step_forms::{SlicePart, Slices};

fn slice_cause(error: SliceError) -> Cause
    ensures { result ≡ slice_cause error }
{
    match error {
        SliceError::ZeroStep => Cause::ZeroStep,
        SliceError::Unbounded => Cause::Unbounded,
        SliceError::BadOrder => Cause::BadOrder,
        SliceError::OutOfRange { lo, hi } => Cause::OutOfRange { lo, hi },
    }
}

// A slice of the dimension.
pub(crate) fn sliced_by(dim: &Interval, part: SlicePart) -> Result<Cut, Cause>
    requires { IsIndexPart part }
    ensures { result ≡ sliced_by dim.now part }
{
    match dim.slice(part.start, part.stop, part.step) {
        Ok(sliced) => Ok(Cut {
            dim: sliced.interval,
            offset: sliced.offset as i64,
            stride: sliced.step,
        }),
        Err(error) => Err(slice_cause(error)),
    }
}

// The part for the selected dimension at a spot.
pub(crate) fn part_for(by: &Slices, spot: usize) -> SlicePart
    ensures { result ≡ part_for by.now spot }
{
    match by {
        Slices::All { part } => *part,
        Slices::Each { parts } => match parts.items().get(spot) {
            Some(part) => *part,
            None => SlicePart {
                start: None,
                stop: None,
                step: 1,
            },
        },
    }
}

pub(crate) fn slices_count(by: &Slices, count: usize) -> bool
    ensures { result ≡ slices_count by.now count }
{
    match by {
        Slices::All { .. } => true,
        Slices::Each { parts } => parts.items().len() == count,
    }
}
