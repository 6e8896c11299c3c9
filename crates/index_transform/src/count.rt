ghost use Rattle.std.specs.Prelude.{◌≡◌, ◌<◌, ◌≤◌, ◌≤ℤ◌, ◌==◌, length, not, map, IfOk, IfSome};
ghost use Rattle.std.specs.Bool.{OnFalse};
ghost use Rattle.std.specs.List.{list_all, list_any, position_from};
ghost use Rattle.index_transform.specs.Maps.{size_of};
ghost use Rattle.index_transform.specs.Cells.{is_finite, counted_from, count_answer, cells_of};
ghost use Rattle.index_transform.specs.Walks.{IsNonEmpty};

use crate::error::CountError;
use crate::map::size_of;
use crate::transform::Transform;
use cells::MOST_ENTRIES;
use index_intervals::{INFINITY, Interval};

impl Transform {
    /// Whether the domain has finitely many cells by its bounds as they stand.
    pub fn is_finite(&self) -> bool
        ensures { result ≡ list_all is_finite self.now.domain.dims }
    {
        self.domain().dims.items().iter().all(is_finite)
    }

    /// The number of cells of the domain, where there are at most 2^22.
    ///
    /// # Errors
    ///
    /// The first that holds:
    /// - `Unbounded` with the first dimension that is infinite.
    /// - `TooMany` where no size is 0, with the first dimension up to which the sizes have a product over 2^22.
    pub fn count(&self) -> Result<u64, CountError>
        ensures value { result ≡ count_answer self.now.domain.dims }
        ensures number { IfOk result (λ n. n ≡ length (cells_of self.now.domain.dims)) }
    {
        count_of(self.domain().dims.items())
    }
}

fn count_of(dims: &[Interval]) -> Result<u64, CountError>
    requires { length dims.now ≤ 32 }
    ensures value { result ≡ count_answer dims.now }
    ensures number { IfOk result (λ n. n ≡ length (cells_of dims.now)) }
{
    if let Some(dim) = first_infinite(dims) {
        return Err(CountError::Unbounded { dim: dim as u32 });
    }
    if has_empty(dims) {
        return Ok(0);
    }
    counted(dims)
}

// Whether some size is 0.
pub(crate) fn has_empty(dims: &[Interval]) -> bool
    ensures value { result ≡ list_any (λ dim. size_of dim == 0) dims.now }
    ensures not_empty { OnFalse result (IsNonEmpty dims.now) }
{
    for dim in dims {
        if is_empty(dim) {
            return true;
        }
    }
    false
}

fn is_empty(dim: &Interval) -> bool
    ensures value { result ≡ (size_of dim.now == 0) }
    ensures not_empty { OnFalse result (dim.now.lo ≤ℤ dim.now.hi) }
{
    dim.hi < dim.lo
}

// The product of the sizes.
fn counted(dims: &[Interval]) -> Result<u64, CountError>
    requires { length dims.now ≤ 32 }
    ensures { result ≡ counted_from 1 0 (map size_of dims.now) }
{
    let mut count: u64 = 1;
    for (k, dim) in dims.iter().enumerate() {
        count = match count.checked_mul(size_of(dim)) {
            Some(product) if product <= MOST_ENTRIES => product,
            _ => return Err(CountError::TooMany { dim: k as u32 }),
        };
    }
    Ok(count)
}

fn first_infinite(dims: &[Interval]) -> Option<usize>
    ensures value { result ≡ position_from (λ dim. not (is_finite dim)) 0 dims.now }
    ensures bound { IfSome result (λ dim. dim < length dims.now) }
{
    dims.iter().position(|dim| !is_finite(dim))
}

fn is_finite(dim: &Interval) -> bool
    ensures { result ≡ is_finite dim.now }
{
    dim.lo != -INFINITY && dim.hi != INFINITY
}
