// Every so many indices of a dimension.
ghost use Rattle.std.specs.Prelude.{◌≡◌};
ghost use Rattle.index_intervals.specs.Bounds.{IsIndex};
ghost use Rattle.dim_changes.specs.Cuts.{strided_by};

use crate::cause::Cause;
use crate::cut::Cut;
use index_intervals::Interval;

// The numbers whose multiple by a stride lies in the dimension.
pub(crate) fn strided_by(dim: &Interval, s: i64) -> Result<Cut, Cause>
    requires { IsIndex s }
    ensures { result ≡ strided_by dim.now s }
{
    match dim.strided(s) {
        Ok(dim) => Ok(Cut {
            dim,
            offset: 0,
            stride: s,
        }),
        Err(_) => Err(Cause::ZeroStep),
    }
}
