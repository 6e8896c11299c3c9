ghost use Rattle.std.specs.Prelude.{◌≡◌, ◌<◌, length};
ghost use Rattle.index_intervals.specs.Around.{around, around_all, IsAround};

use crate::interval::Interval;

impl Interval {
    /// The least interval around this one and another. A bound is implicit where one of the two that attains it has it
    /// implicit.
    pub fn around(&self, other: &Interval) -> Interval
        ensures { result ≡ around self.now other.now }
    {
        Interval {
            lo: self.lo.min(other.lo),
            hi: self.hi.max(other.hi),
            lo_implicit: self.is_lo_implicit_around(other),
            hi_implicit: self.is_hi_implicit_around(other),
        }
    }

    fn is_lo_implicit_around(&self, other: &Interval) -> bool
        ensures { result ≡ (around self.now other.now).lo_implicit }
    {
        self.lo <= other.lo && self.lo_implicit || other.lo <= self.lo && other.lo_implicit
    }

    fn is_hi_implicit_around(&self, other: &Interval) -> bool
        ensures { result ≡ (around self.now other.now).hi_implicit }
    {
        other.hi <= self.hi && self.hi_implicit || self.hi <= other.hi && other.hi_implicit
    }
}

/// The least interval around one or more: the least lower and the greatest upper bound. A bound is implicit where an
/// interval that attains it has it implicit.
pub fn around_all(dims: &[Interval]) -> Interval
    requires { 0 < length dims.now }
    ensures value { result ≡ around_all dims.now }
    ensures rule { IsAround dims.now result }
{
    let mut all = dims[0];
    for k in 1..dims.len() {
        all = all.around(&dims[k]);
    }
    all
}
