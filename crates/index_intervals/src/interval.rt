ghost use Rattle.std.specs.Prelude.{◌≡◌, ◌≢◌, int_lt, ◌&&◌, ◌||◌, length, ℤ, pos, ◌≤ℤ◌, ◌<ℤ◌, ◌+ℤ◌, ◌-ℤ◌, ◌*ℤ◌, ◌↔◌, unsigned_abs, IsTrue, IsOk, IfOk};
ghost use Rattle.std.specs.Int.{int_min};
ghost use Rattle.index_intervals.specs.Bounds.{Bounds, AreBounds, IsIndex, is_index, minus_infinity, plus_infinity};
ghost use Rattle.index_intervals.specs.Members.{IsMember, IsEffectiveMember, IsWithin, effective_lo, effective_hi, effective_bounds, is_finite, size_of, has_index};
ghost use Rattle.index_intervals.specs.Meet.{met, IsTieFlag};
ghost use Rattle.index_intervals.specs.Shift.{moved, shifted, CanShift};
ghost use Rattle.index_intervals.specs.Stride.{strided, mirrored, contracted, facing, RoundsInward};

use crate::error::{BadBounds, Overflow, ZeroStep};
use std::marker::Model;

/// Stands for a missing upper bound; its negation for a missing lower one. A finite index lies between the two.
pub const INFINITY: i64 = 4_611_686_018_427_387_903;

/// Whether a number is a finite index, which lies within 2^62 - 2 of 0.
pub fn is_index(x: i128) -> bool
    ensures meaning { IsTrue result ↔ IsIndex x }
    ensures value { result ≡ is_index x }
{
    let limit = i128::from(INFINITY);
    -limit < x && x < limit
}

/// The indices from `lo` to `hi`, both included; none where `lo` is `hi + 1`.
///
/// `lo` may be `-INFINITY` and `hi` may be `INFINITY`. An implicit bound is a hint that indexing may pass; an explicit
/// one is a limit.
///
/// TensorStore, "Index space", "Index domain".
#[derive(Clone, Copy, Debug, PartialEq, Eq)]
pub struct Interval {
    pub lo: i64,
    pub hi: i64,
    pub lo_implicit: bool,
    pub hi_implicit: bool,
}

impl Model for Interval {
    ghost use Rattle.index_intervals.specs.Bounds.{Bounds, AreBounds};

    ghost Value = { Bounds };

    ghost view = { λ a. record { lo = a.lo; hi = a.hi; lo_implicit = a.lo_implicit; hi_implicit = a.hi_implicit } };

    ghost invariant = { λ a. AreBounds (record { lo = a.lo; hi = a.hi; lo_implicit = a.lo_implicit; hi_implicit = a.hi_implicit }) };

    ghost inverse = { λ b. record { lo = b.lo; hi = b.hi; lo_implicit = b.lo_implicit; hi_implicit = b.hi_implicit } };
}

impl Interval {
    /// The interval with these bounds and flags.
    ///
    /// # Errors
    ///
    /// `BadBounds` where `lo` isn't finite or `-INFINITY`, `hi` isn't finite or `INFINITY`, or `lo` is over `hi + 1`.
    pub fn new(
        lo: i64,
        hi: i64,
        lo_implicit: bool,
        hi_implicit: bool,
    ) -> Result<Interval, BadBounds>
        ensures accepts { IsOk result ↔ AreBounds
            (record { lo = lo; hi = hi; lo_implicit = lo_implicit; hi_implicit = hi_implicit }) }
        ensures value { IfOk result (λ i.
            i ≡ record { lo = lo; hi = hi; lo_implicit = lo_implicit; hi_implicit = hi_implicit }) }
    {
        let lo_fits = -INFINITY <= lo && lo < INFINITY;
        let hi_fits = -INFINITY < hi && hi <= INFINITY;
        if !lo_fits || !hi_fits || lo > hi + 1 {
            return Err(BadBounds);
        }
        Ok(Interval {
            lo,
            hi,
            lo_implicit,
            hi_implicit,
        })
    }

    /// Whether the index is a member, implicit bounds counted as they stand.
    pub fn contains(&self, x: i64) -> bool
        ensures { IsTrue result ↔ IsMember self.now x }
    {
        let is_finite = -INFINITY < x && x < INFINITY;
        is_finite && self.lo <= x && x <= self.hi
    }

    /// Whether both bounds are finite, implicit ones counted as they stand.
    pub fn is_finite(&self) -> bool
        ensures { result ≡ is_finite self.now }
    {
        self.lo != -INFINITY && self.hi != INFINITY
    }

    /// How many indices a finite interval has.
    pub fn size(&self) -> u64
        requires { IsTrue (is_finite self.now) }
        ensures value { result ≡ size_of self.now }
        ensures last { pos result ≡ self.now.hi +ℤ pos 1 -ℤ self.now.lo }
    {
        (self.hi + 1 - self.lo) as u64
    }

    /// Whether the effective interval has an index.
    pub fn has_index(&self) -> bool
        ensures value { result ≡ has_index self.now }
        ensures some { IsTrue result → (x : ℤ) × IsEffectiveMember self.now x }
        ensures only { (x : ℤ) → IsEffectiveMember self.now x → IsTrue result }
    {
        self.is_open_or_ordered()
    }

    fn is_open_or_ordered(&self) -> bool
        ensures value { result ≡ has_index self.now }
        ensures bounds { AreBounds self.now }
    {
        self.lo_implicit || self.hi_implicit || self.lo <= self.hi
    }

    /// The interval with an infinite bound in place of each implicit one. The flags stay.
    ///
    /// Indexing is checked against it.
    pub fn effective(&self) -> Interval
        ensures value { result ≡ effective_bounds self.now }
        ensures members { (x : ℤ) → IsMember result x ↔ IsEffectiveMember self.now x }
    {
        Interval {
            lo: self.effective_lo(),
            hi: self.effective_hi(),
            lo_implicit: self.lo_implicit,
            hi_implicit: self.hi_implicit,
        }
    }

    pub(crate) fn effective_lo(&self) -> i64
        ensures { result ≡ effective_lo self.now }
    {
        if self.lo_implicit { -INFINITY } else { self.lo }
    }

    pub(crate) fn effective_hi(&self) -> i64
        ensures { result ≡ effective_hi self.now }
    {
        if self.hi_implicit { INFINITY } else { self.hi }
    }

    /// The interval of the numbers in both.
    ///
    /// On a tie a bound is implicit only where both are. Where the bounds cross, the upper one is the number below the
    /// lower one.
    pub fn meet(&self, other: &Interval) -> Interval
        ensures value { result ≡ met self.now other.now }
        ensures members { (x : ℤ) → IsMember result x ↔ (IsMember self.now x × IsMember other.now x) }
        ensures lo_flag { IsTieFlag self.now.lo self.now.lo_implicit other.now.lo other.now.lo_implicit result.lo
            result.lo_implicit }
        ensures hi_flag { IsTieFlag self.now.hi self.now.hi_implicit other.now.hi other.now.hi_implicit
            (int_min self.now.hi other.now.hi) result.hi_implicit }
    {
        let lo = self.lo.max(other.lo);
        let hi = self.hi.min(other.hi).max(lo - 1);
        Interval {
            lo,
            hi,
            lo_implicit: self.is_met_lo_implicit(other),
            hi_implicit: self.is_met_hi_implicit(other),
        }
    }

    fn is_met_lo_implicit(&self, other: &Interval) -> bool
        ensures { result ≡ ((int_lt self.now.lo other.now.lo || self.now.lo_implicit) &&
            (int_lt other.now.lo self.now.lo || other.now.lo_implicit)) }
    {
        (self.lo < other.lo || self.lo_implicit) && (other.lo < self.lo || other.lo_implicit)
    }

    fn is_met_hi_implicit(&self, other: &Interval) -> bool
        ensures { result ≡ ((int_lt other.now.hi self.now.hi || self.now.hi_implicit) &&
            (int_lt self.now.hi other.now.hi || other.now.hi_implicit)) }
    {
        (other.hi < self.hi || self.hi_implicit) && (self.hi < other.hi || other.hi_implicit)
    }

    /// The interval moved by a number: finite bounds move, infinite ones and flags stay.
    ///
    /// # Errors
    ///
    /// `Overflow` where a finite bound, explicit or implicit, would be no finite index any more.
    pub fn shift(&self, by: i64) -> Result<Interval, Overflow>
        ensures succeeds { IsOk result ↔ CanShift self.now by }
        ensures value { IfOk result (λ i. i ≡ shifted self.now by) }
        ensures members { IfOk result (λ i. (x : ℤ) → IsIndex x → IsIndex (x +ℤ by) → IsMember i (x +ℤ by)
            ↔ IsMember self.now x) }
    {
        Ok(Interval {
            lo: moved(self.lo, by)?,
            hi: moved(self.hi, by)?,
            lo_implicit: self.lo_implicit,
            hi_implicit: self.hi_implicit,
        })
    }

    /// The interval of the numbers whose multiple by the stride lies in this one.
    ///
    /// The lower bound is a quotient rounded up and the upper one a quotient rounded down, in an empty interval too. An
    /// infinite bound stays infinite. For a negative stride bounds and flags change places.
    ///
    /// # Errors
    ///
    /// `ZeroStep` where the stride is 0.
    ///
    /// TensorStore, "Index space", "Dimension expressions", `stride`.
    pub fn strided(&self, s: i64) -> Result<Interval, ZeroStep>
        requires { IsIndex s }
        ensures succeeds { IsOk result ↔ (s ≢ pos 0) }
        ensures value { IfOk result (λ i. i ≡ strided self.now s) }
        ensures members { IfOk result (λ i. (x : ℤ) → IsIndex x → IsMember i x ↔ IsWithin self.now (x *ℤ s)) }
        ensures rounded { IfOk result (RoundsInward (facing self.now s) (pos (unsigned_abs s))) }
    {
        if s == 0 {
            return Err(ZeroStep);
        }
        Ok(self.facing(s).contracted(s.abs()))
    }

    // The interval as a stride of this sign runs through it.
    fn facing(&self, s: i64) -> Interval
        ensures { result ≡ facing self.now s }
    {
        if s < 0 { self.mirrored() } else { *self }
    }

    // The interval of the negated numbers.
    fn mirrored(&self) -> Interval
        ensures { result ≡ mirrored self.now }
    {
        Interval {
            lo: -self.hi,
            hi: -self.lo,
            lo_implicit: self.hi_implicit,
            hi_implicit: self.lo_implicit,
        }
    }

    // The finite bounds divided by a positive number, rounded inward.
    fn contracted(&self, by: i64) -> Interval
        requires { pos 0 <ℤ by }
        ensures value { result ≡ contracted self.now by }
        ensures members { (x : ℤ) → IsIndex x → IsMember result x ↔ IsWithin self.now (x *ℤ by) }
        ensures rounded { RoundsInward self.now by result }
    {
        Interval {
            lo: self.contracted_lo(by),
            hi: self.contracted_hi(by),
            lo_implicit: self.lo_implicit,
            hi_implicit: self.hi_implicit,
        }
    }

    fn contracted_lo(&self, by: i64) -> i64
        requires { pos 0 <ℤ by }
        ensures { result ≡ (contracted self.now by).lo }
    {
        if self.lo == -INFINITY {
            -INFINITY
        } else {
            -(-self.lo).div_euclid(by)
        }
    }

    fn contracted_hi(&self, by: i64) -> i64
        requires { pos 0 <ℤ by }
        ensures { result ≡ (contracted self.now by).hi }
    {
        if self.hi == INFINITY {
            INFINITY
        } else {
            self.hi.div_euclid(by)
        }
    }
}

// A finite bound moved; an infinite one stays.
fn moved(bound: i64, by: i64) -> Result<i64, Overflow>
    requires lo { minus_infinity ≤ℤ bound }
    requires hi { bound ≤ℤ plus_infinity }
    ensures succeeds { IsOk result ↔ (IsIndex bound → IsIndex (bound +ℤ by)) }
    ensures value { IfOk result (λ x. x ≡ moved by bound) }
{
    if bound == -INFINITY || bound == INFINITY {
        return Ok(bound);
    }
    match bound.checked_add(by) {
        Some(x) if -INFINITY < x && x < INFINITY => Ok(x),
        _ => Err(Overflow),
    }
}
