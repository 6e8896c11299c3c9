// Moved dimensions.
ghost use Rattle.std.specs.Prelude.{◌≡◌, ◌<◌, negsuc, ◌<ℤ◌, Ok};
ghost use Rattle.index_intervals.specs.Bounds.{IsIndex};
ghost use Rattle.dim_changes.specs.Cuts.{moved_by, moved_to, moved_back};

use crate::cause::Cause;
use crate::cut::Cut;
use index_intervals::{Interval, is_index};

// The dimension moved up by a number.
pub(crate) fn moved_by(dim: &Interval, by: i64) -> Result<Cut, Cause>
    requires { negsuc 9223372036854775807 <ℤ by }
    ensures { result ≡ moved_by dim.now by }
{
    match dim.shift(by) {
        Ok(dim) => Ok(Cut {
            dim,
            offset: -by,
            stride: 1,
        }),
        Err(_) => Err(Cause::Overflow),
    }
}

// The dimension moved so that its lower bound is a number.
pub(crate) fn moved_to(dim: &Interval, origin: i64) -> Result<Cut, Cause>
    requires { IsIndex origin }
    ensures { result ≡ moved_to dim.now origin }
{
    if !is_index(dim.lo.into()) {
        return Err(Cause::Unbounded);
    }
    moved_by(dim, origin - dim.lo)
}

// The dimension moved down by a number.
pub(crate) fn moved_back(dim: &Interval, by: i64) -> Result<Cut, Cause>
    requires { IsIndex by }
    ensures { result ≡ moved_back dim.now by }
{
    moved_by(dim, -by)
}
