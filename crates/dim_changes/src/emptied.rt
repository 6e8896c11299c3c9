// Dimensions that stay infinite. The ends of what a stride makes of them may have been no finite index, so maps are composed
// over an empty interval in their place.
ghost use Rattle.std.specs.Prelude.{◌≡◌};
ghost use Rattle.dim_changes.specs.Emptied.{emptied, empty_dim, refilled, stays_infinite};

use index_intervals::Interval;

// Whether a dimension is infinite before a step and after it.
fn stays_infinite(old: &Interval, new: &Interval) -> bool
    ensures { result ≡ stays_infinite old.now new.now }
{
    !old.is_finite() && !new.is_finite()
}

fn empty_dim() -> Interval
    ensures { result ≡ empty_dim }
{
    Interval {
        lo: 0,
        hi: -1,
        lo_implicit: false,
        hi_implicit: false,
    }
}

// The dimension over which maps are composed.
pub(crate) fn emptied(old: &Interval, new: Interval) -> Interval
    ensures { result ≡ emptied old.now new }
{
    if stays_infinite(old, &new) {
        empty_dim()
    } else {
        new
    }
}

// The dimension of the result: as the step gives it where it stays infinite, else as composing left it.
pub(crate) fn refilled(old: &Interval, new: Interval, composed: &Interval) -> Interval
    ensures { result ≡ refilled old.now new composed.now }
{
    if stays_infinite(old, &new) {
        new
    } else {
        *composed
    }
}
