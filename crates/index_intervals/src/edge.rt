ghost use Rattle.std.specs.Prelude.{◌≡◌, ◌≢◌, ◌<◌, ◌^◌, ◌⊎◌, pos, ◌<ℤ◌, ◌≤ℤ◌, ◌+ℤ◌, ◌-ℤ◌, int_lt, if◌then◌else◌, unwrap_or, unsigned_abs};
ghost use Rattle.index_intervals.specs.Meet.{cross_at, below};
ghost use Rattle.std.specs.Option.{ForSome, option_map};
ghost use Rattle.index_intervals.specs.Bounds.{IsIndex, minus_infinity, plus_infinity};
ghost use Rattle.index_intervals.specs.Stride.{quotient_up, quotient_down};
ghost use Rattle.index_intervals.specs.Edges.{finite_part, least_from, least_beyond, greatest_to, greatest_before, interval_of};

use crate::interval::{INFINITY, Interval};

/// A bound by itself, with its flag: missing where it is infinite, and else any number, also one that is no index.
#[derive(Clone, Copy, Debug, PartialEq, Eq)]
pub struct Edge {
    pub at: Option<i128>,
    pub implicit: bool,
}

impl Edge {
    ghost use Rattle.index_intervals.specs.Edges.{lower_edge, upper_edge, preimage_lower, preimage_upper, is_open};
    ghost use Rattle.index_intervals.specs.Meet.{greater_edge, lesser_edge};

    /// The lower bound of an interval.
    pub fn lower(dim: &Interval) -> Edge
        ensures { result ≡ lower_edge dim.now }
    {
        Edge {
            at: finite(dim.lo),
            implicit: dim.lo_implicit,
        }
    }

    /// The upper bound of an interval.
    pub fn upper(dim: &Interval) -> Edge
        ensures { result ≡ upper_edge dim.now }
    {
        Edge {
            at: finite(dim.hi),
            implicit: dim.hi_implicit,
        }
    }

    /// Whether the bound is implicit or infinite.
    pub fn is_open(self) -> bool
        ensures { result ≡ is_open self }
    {
        self.implicit || self.at.is_none()
    }

    /// The lower edge of the numbers `x` for which `offset + stride * x` lies in the interval.
    pub fn preimage_lower(dim: &Interval, offset: i64, stride: i64) -> Edge
        requires { stride ≢ pos 0 }
        ensures { result ≡ preimage_lower dim.now offset stride }
    {
        if stride < 0 {
            Edge {
                at: least_beyond(finite(dim.hi), offset, stride),
                implicit: dim.hi_implicit,
            }
        } else {
            Edge {
                at: least_from(finite(dim.lo), offset, stride),
                implicit: dim.lo_implicit,
            }
        }
    }

    /// The upper edge of the same numbers.
    pub fn preimage_upper(dim: &Interval, offset: i64, stride: i64) -> Edge
        requires { stride ≢ pos 0 }
        ensures { result ≡ preimage_upper dim.now offset stride }
    {
        if stride < 0 {
            Edge {
                at: greatest_before(finite(dim.lo), offset, stride),
                implicit: dim.lo_implicit,
            }
        } else {
            Edge {
                at: greatest_to(finite(dim.hi), offset, stride),
                implicit: dim.hi_implicit,
            }
        }
    }

    /// The greater of two lower edges. On a tie it is implicit only where both are.
    pub fn greater(self, other: Edge) -> Edge
        ensures { result ≡ greater_edge self other }
    {
        match (self.at, other.at) {
            (None, None) => Edge {
                at: None,
                implicit: self.implicit && other.implicit,
            },
            (None, Some(_)) => other,
            (Some(_), None) => self,
            (Some(x), Some(y)) => Edge {
                at: Some(x.max(y)),
                implicit: (x < y || self.implicit) && (y < x || other.implicit),
            },
        }
    }

    /// The lesser of two upper edges. On a tie it is implicit only where both are.
    pub fn lesser(self, other: Edge) -> Edge
        ensures { result ≡ lesser_edge self other }
    {
        match (self.at, other.at) {
            (None, None) => Edge {
                at: None,
                implicit: self.implicit && other.implicit,
            },
            (None, Some(_)) => other,
            (Some(_), None) => self,
            (Some(x), Some(y)) => Edge {
                at: Some(x.min(y)),
                implicit: (y < x || self.implicit) && (x < y || other.implicit),
            },
        }
    }
}

/// Both bounds of an interval, or of the numbers between two edges.
#[derive(Clone, Copy, Debug, PartialEq, Eq)]
pub struct Ends {
    pub lower: Edge,
    pub upper: Edge,
}

impl Ends {
    ghost use Rattle.std.specs.Prelude.{[], ◌∷◌};
    ghost use Rattle.index_intervals.specs.Edges.{ends_of, preimage};
    ghost use Rattle.index_intervals.specs.Meet.{bounds_met, uncrossed};

    /// The bounds of an interval.
    pub fn of(dim: &Interval) -> Ends
        ensures { result ≡ ends_of dim.now }
    {
        Ends {
            lower: Edge::lower(dim),
            upper: Edge::upper(dim),
        }
    }

    /// The bounds of the numbers `x` for which `offset + stride * x` lies in the interval.
    pub fn preimage(dim: &Interval, offset: i64, stride: i64) -> Ends
        requires { stride ≢ pos 0 }
        ensures { result ≡ preimage dim.now offset stride }
    {
        Ends {
            lower: Edge::preimage_lower(dim, offset, stride),
            upper: Edge::preimage_upper(dim, offset, stride),
        }
    }

    /// The greater lower and the lesser upper bound.
    pub fn within(self, other: Ends) -> Ends
        ensures { result ≡ bounds_met self (other ∷ []) }
    {
        Ends {
            lower: self.lower.greater(other.lower),
            upper: self.upper.lesser(other.upper),
        }
    }

    /// The same bounds, but the upper one right below the lower one where they cross.
    pub fn uncrossed(self) -> Ends
        ensures { result ≡ uncrossed self }
    {
        Ends {
            lower: self.lower,
            upper: Edge {
                at: uncrossed_at(self.lower.at, self.upper.at),
                implicit: self.upper.implicit,
            },
        }
    }
}

fn uncrossed_at(low: Option<i128>, high: Option<i128>) -> Option<i128>
    ensures { result ≡ (if cross_at low high then below low else high) }
{
    match (low, high) {
        (Some(x), Some(y)) => Some(uncrossed_from(x, y)),
        _ => high,
    }
}

fn uncrossed_from(x: i128, y: i128) -> i128
    ensures { result ≡ (if int_lt (y +ℤ pos 1) x then x -ℤ pos 1 else y) }
{
    if y < x && y < x - 1 { x - 1 } else { y }
}

/// The interval between two edges; where they cross, its upper bound is the number below its lower one.
pub fn interval_of(lower: Edge, upper: Edge) -> Interval
    requires lower { ForSome lower.at IsIndex }
    requires upper { ForSome upper.at IsIndex }
    ensures value { result ≡ interval_of lower upper }
{
    let lo = bound_of(lower.at, -INFINITY);
    let hi = bound_of(upper.at, INFINITY);
    Interval {
        lo,
        hi: crossed(lo, hi),
        lo_implicit: lower.implicit,
        hi_implicit: upper.implicit,
    }
}

fn bound_of(at: Option<i128>, missing: i64) -> i64
    requires { ForSome at IsIndex }
    ensures value { result ≡ unwrap_or at missing }
    ensures index { IsIndex result ⊎ (result ≡ missing) }
{
    match at {
        Some(x) => x as i64,
        None => missing,
    }
}

fn crossed(lo: i64, hi: i64) -> i64
    requires lo { IsIndex lo ⊎ (lo ≡ minus_infinity) }
    requires hi { IsIndex hi ⊎ (hi ≡ plus_infinity) }
    ensures value { result ≡ (if int_lt (hi +ℤ pos 1) lo then lo -ℤ pos 1 else hi) }
{
    if hi + 1 < lo { lo - 1 } else { hi }
}

// The bound, where it is finite.
fn finite(bound: i64) -> Option<i128>
    requires lo { minus_infinity ≤ℤ bound }
    requires hi { bound ≤ℤ plus_infinity }
    ensures { result ≡ finite_part bound }
{
    if bound == -INFINITY || bound == INFINITY {
        None
    } else {
        Some(bound.into())
    }
}

fn least_from(low: Option<i128>, offset: i64, stride: i64) -> Option<i128>
    requires stride { pos 0 <ℤ stride }
    requires low { ForSome low IsIndex }
    ensures { result ≡ option_map (least_from offset stride) low }
{
    match low {
        Some(low) => Some(quotient_up(low - i128::from(offset), stride.into())),
        None => None,
    }
}

fn least_beyond(high: Option<i128>, offset: i64, stride: i64) -> Option<i128>
    requires stride { stride <ℤ pos 0 }
    requires high { ForSome high IsIndex }
    ensures { result ≡ option_map (least_beyond offset stride) high }
{
    match high {
        Some(high) => Some(quotient_up(i128::from(offset) - high, -i128::from(stride))),
        None => None,
    }
}

fn greatest_to(high: Option<i128>, offset: i64, stride: i64) -> Option<i128>
    requires stride { pos 0 <ℤ stride }
    requires high { ForSome high IsIndex }
    ensures { result ≡ option_map (greatest_to offset stride) high }
{
    match high {
        Some(high) => Some(quotient_down(high - i128::from(offset), stride.into())),
        None => None,
    }
}

fn greatest_before(low: Option<i128>, offset: i64, stride: i64) -> Option<i128>
    requires stride { stride <ℤ pos 0 }
    requires low { ForSome low IsIndex }
    ensures { result ≡ option_map (greatest_before offset stride) low }
{
    match low {
        Some(low) => Some(quotient_down(i128::from(offset) - low, -i128::from(stride))),
        None => None,
    }
}

fn quotient_up(x: i128, n: i128) -> i128
    requires positive { pos 0 <ℤ n }
    requires small { unsigned_abs x < 2 ^ 65 }
    ensures { result ≡ quotient_up x n }
{
    -(-x).div_euclid(n)
}

fn quotient_down(x: i128, n: i128) -> i128
    requires positive { pos 0 <ℤ n }
    requires small { unsigned_abs x < 2 ^ 65 }
    ensures { result ≡ quotient_down x n }
{
    x.div_euclid(n)
}
