// What becomes of one dimension.
ghost use Rattle.std.specs.Prelude.{◌≡◌};
ghost use Rattle.dim_changes.specs.Cuts.{kept};

use index_intervals::Interval;

/// What becomes of one dimension: its new interval, whose index `x` was `offset + stride * x`.
#[derive(Clone, Copy, Debug, PartialEq, Eq)]
pub struct Cut {
    pub dim: Interval,
    pub offset: i64,
    pub stride: i64,
}

// The dimension as it is.
pub(crate) fn kept(dim: &Interval) -> Cut
    ensures { result ≡ kept dim.now }
{
    Cut {
        dim: *dim,
        offset: 0,
        stride: 1,
    }
}
