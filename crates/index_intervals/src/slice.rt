ghost use Rattle.std.specs.Prelude.{◌≡◌, ℕ, ℤ, pos, ◌≢◌, ◌≤ℤ◌, ◌<ℤ◌, ◌+ℤ◌, ◌-ℤ◌, ◌*ℤ◌, ◌↔◌, IsTrue, IfOk, ◌&&◌};
ghost use Rattle.std.specs.Int.{is_negative};
ghost use Rattle.std.specs.Option.{ForSome};
ghost use Rattle.index_intervals.specs.Bounds.{IsIndex, minus_infinity, plus_infinity};
ghost use Rattle.index_intervals.specs.Slice.{is_backward, slice_lo, slice_hi, slice_size, keeps_flag, IsNearIndex};
ghost use Rattle.index_intervals.specs.Members.{effective_lo, effective_hi};

use crate::interval::{INFINITY, Interval};
use thiserror::Error;

/// A slice of an interval: its number `x` lay at `offset + step * x`.
#[derive(Clone, Copy, Debug, PartialEq, Eq)]
pub struct Sliced {
    pub interval: Interval,
    pub offset: i128,
    pub step: i64,
}

/// Why an interval has no such slice.
#[derive(Clone, Copy, Debug, PartialEq, Eq, Error)]
pub enum SliceError {
    /// The step is 0.
    #[error("the step is 0")]
    ZeroStep,
    /// A start or stop is left out whose bound is infinite, and the step isn't 1.
    #[error("a bound that is left out is infinite")]
    Unbounded,
    /// The start lies past the stop.
    #[error("the start lies past the stop")]
    BadOrder,
    /// The range leaves the interval whose effective bounds are `lo` and `hi`.
    #[error("the range leaves {lo} to {hi}")]
    OutOfRange { lo: i64, hi: i64 },
}

impl Interval {
    ghost use Rattle.index_intervals.specs.Slice.{sliced, cut, IsInOrder, KeepsPositions, slice_start, slice_stop, is_open, covers, is_inside};

    /// The numbers from `start` by `step` before `stop`.
    ///
    /// A start or stop that is left out is the bound on that side. At step 1 such a bound keeps its flag; every other
    /// bound of the result is explicit. The new lower bound is `start / step`, rounded towards zero. There is no
    /// clamping, and a negative number is an ordinary position.
    ///
    /// # Errors
    ///
    /// The first that holds:
    /// - `ZeroStep`.
    /// - `Unbounded` where a part that is left out is infinite and the step isn't 1.
    /// - `BadOrder` where the start lies past the stop, as the step runs.
    /// - `OutOfRange` with the effective bounds where a number of the range passes them, where an empty range lies
    ///   neither in the interval nor right behind it, and where the upper bound would lie below every index.
    ///
    /// TensorStore, "Index space", "Dimension expressions", slicing with a step.
    pub fn slice(
        &self,
        start: Option<i64>,
        stop: Option<i64>,
        step: i64,
    ) -> Result<Sliced, SliceError>
        requires start { ForSome start IsIndex }
        requires stop { ForSome stop IsIndex }
        requires step { IsIndex step }
        ensures value { result ≡ sliced self.now start stop step }
        ensures positions { IfOk result (KeepsPositions self.now start stop step) }
    {
        if step == 0 {
            return Err(SliceError::ZeroStep);
        }
        if self.is_open(start, stop, step) {
            return Err(SliceError::Unbounded);
        }
        let from = self.slice_start(start, step);
        let to = self.slice_stop(stop, step);
        if is_backward(step, from, to) {
            return Err(SliceError::BadOrder);
        }
        self.cut(start, stop, step, from, to)
    }

    // The slice from `from` to before `to`, which its parts that are left out are read as.
    fn cut(
        &self,
        start: Option<i64>,
        stop: Option<i64>,
        step: i64,
        from: i64,
        to: i64,
    ) -> Result<Sliced, SliceError>
        requires ordered { IsInOrder self.now start stop step }
        requires from { from ≡ slice_start self.now start step }
        requires to { to ≡ slice_stop self.now stop step }
        ensures value { result ≡ cut self.now start stop step }
        ensures positions { IfOk result (KeepsPositions self.now start stop step) }
    {
        let _ = &self.lo;
        let hi = last(step, from, to);
        if !self.is_inside(step, from, to) || hi == -INFINITY {
            return Err(self.out_of_range());
        }
        Ok(Sliced {
            interval: Interval {
                lo: first(step, from),
                hi,
                lo_implicit: self.keeps_lo_implicit(start, step),
                hi_implicit: self.keeps_hi_implicit(stop, step),
            },
            offset: i128::from(remainder(step, from)),
            step,
        })
    }

    fn keeps_lo_implicit(&self, start: Option<i64>, step: i64) -> bool
        ensures { result ≡ (keeps_flag start step && self.now.lo_implicit) }
    {
        keeps_flag(start, step) && self.lo_implicit
    }

    fn keeps_hi_implicit(&self, stop: Option<i64>, step: i64) -> bool
        ensures { result ≡ (keeps_flag stop step && self.now.hi_implicit) }
    {
        keeps_flag(stop, step) && self.hi_implicit
    }

    fn out_of_range(&self) -> SliceError
        ensures { result ≡ SliceError.OutOfRange (effective_lo self.now) (effective_hi self.now) }
    {
        SliceError::OutOfRange {
            lo: self.effective_lo(),
            hi: self.effective_hi(),
        }
    }

    // Whether a part that is left out is infinite at a step other than 1.
    fn is_open(&self, start: Option<i64>, stop: Option<i64>, step: i64) -> bool
        ensures { result ≡ is_open self.now start stop step }
    {
        if step == 1 {
            return false;
        }
        let (first, last) = if step < 0 {
            (stop, start)
        } else {
            (start, stop)
        };
        first.is_none() && self.lo == -INFINITY || last.is_none() && self.hi == INFINITY
    }

    fn slice_start(&self, start: Option<i64>, step: i64) -> i64
        ensures { result ≡ slice_start self.now start step }
    {
        start.unwrap_or(if step < 0 { self.hi } else { self.lo })
    }

    fn slice_stop(&self, stop: Option<i64>, step: i64) -> i64
        ensures { result ≡ slice_stop self.now stop step }
    {
        stop.unwrap_or(if step < 0 { self.lo - 1 } else { self.hi + 1 })
    }

    // Whether the range passes no explicit bound.
    fn is_inside(&self, step: i64, from: i64, to: i64) -> bool
        requires from { IsNearIndex from }
        requires to { IsNearIndex to }
        ensures { result ≡ is_inside self.now step from to }
    {
        if step < 0 && from != to {
            self.covers(to + 1, from)
        } else {
            self.covers(from, to - 1)
        }
    }

    fn covers(&self, least: i64, greatest: i64) -> bool
        ensures { result ≡ covers self.now least greatest }
    {
        self.effective_lo() <= least && greatest <= self.effective_hi()
    }
}

// Whether the start lies past the stop, as the step runs.
fn is_backward(step: i64, from: i64, to: i64) -> bool
    ensures { result ≡ is_backward step from to }
{
    if step < 0 { from < to } else { to < from }
}

// The lower bound of a slice from `from`.
fn first(step: i64, from: i64) -> i64
    requires step { step ≢ pos 0 }
    requires from { IsNearIndex from }
    ensures { result ≡ slice_lo step from }
{
    from / step
}

// The position of the number 0.
fn remainder(step: i64, from: i64) -> i64
    requires step { step ≢ pos 0 }
    requires from { IsNearIndex from }
    ensures { result ≡ from -ℤ step *ℤ slice_lo step from }
{
    from % step
}

// How many positions lie from `from` to before `to`.
fn size(step: i64, from: i64, to: i64) -> u64
    requires { step ≢ pos 0 }
    ensures { result ≡ slice_size step from to }
{
    to.abs_diff(from).div_ceil(step.unsigned_abs())
}

// The upper bound of a slice from `from` to before `to`.
fn last(step: i64, from: i64, to: i64) -> i64
    requires step { step ≢ pos 0 }
    requires from { IsNearIndex from }
    requires least { minus_infinity ≤ℤ slice_hi step from to }
    requires most { slice_hi step from to ≤ℤ plus_infinity }
    ensures { result ≡ slice_hi step from to }
{
    (i128::from(first(step, from)) + i128::from(size(step, from, to)) - 1) as i64
}

// Whether a bound is left out at step 1.
fn keeps_flag(part: Option<i64>, step: i64) -> bool
    ensures { result ≡ keeps_flag part step }
{
    part.is_none() && step == 1
}
