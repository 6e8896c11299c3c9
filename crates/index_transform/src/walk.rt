ghost use Rattle.std.specs.Prelude.{◌≡◌, ◌∷◌, [], length, map, MatchBool, IfOk, IsTrue, Some, None};
ghost use Rattle.std.specs.List.{list_all};
ghost use Rattle.index_transform.specs.Cells.{is_finite, cells_of};
ghost use Rattle.index_transform.specs.Walks.{lows, IsCell, next_cell};

use crate::count::has_empty;
use crate::domain::Domain;
use index_intervals::Interval;
use std::alloc::{AllocError, Global};
use std::marker::Model;

/// A walk through the cells of a finite domain in C order: the last index changes fastest.
#[derive(Debug, Drop)]
pub struct Walk {
    dims: Vec<Interval>,
    next: Vec<i64>,
    ended: bool,
}

impl Model for Walk {
    ghost use Rattle.std.specs.Prelude.{length};
    ghost use Rattle.index_transform.specs.Walks.{CellsLeft, left_of, IsWalk};

    ghost Value = { CellsLeft };

    ghost view = { λ a. record { rank = length a.dims.items; cells = left_of a.ended a.dims.items a.next.items } };

    ghost invariant = { λ a. IsWalk a.ended a.dims.items a.next.items };
}

impl Walk {
    /// A walk through all cells of a domain with finite bounds.
    pub fn new(alloc: Global, domain: &Domain) -> Result<Walk, AllocError>
        requires { IsTrue (list_all is_finite domain.now.dims) }
        ensures { IfOk result (λ walk.
            walk ≡ record { rank = length domain.now.dims; cells = cells_of domain.now.dims }) }
    {
        Walk::over(alloc, domain.dims.items())
    }

    /// A walk through the index vectors of intervals with finite bounds.
    pub fn over(alloc: Global, dims: &[Interval]) -> Result<Walk, AllocError>
        requires { IsTrue (list_all is_finite dims.now) }
        ensures { IfOk result (λ walk. walk ≡ record { rank = length dims.now; cells = cells_of dims.now }) }
    {
        let next = lower_bounds(alloc, dims)?;
        let ended = has_empty(dims);
        let dims = Vec::from_slice(alloc, dims)?;
        Ok(Walk { dims, next, ended })
    }

    /// Writes the next cell into `out`, which has the domain's rank, or answers that there is none.
    pub fn advance(&mut self, out: &mut [i64]) -> bool
        requires { length out.old ≡ self.old.rank }
        ensures cell { MatchBool result
            (self.old.cells ≡ out.new ∷ self.new.cells)
            ((self.old.cells ≡ []) × (self.new.cells ≡ []) × (out.new ≡ out.old)) }
        ensures rank { self.new.rank ≡ self.old.rank }
    {
        if self.ended {
            return false;
        }
        out.copy_from_slice(&self.next);
        self.ended = !step(&self.dims, &mut self.next);
        true
    }
}

/// The lower bounds of intervals.
pub fn lower_bounds(alloc: Global, dims: &[Interval]) -> Result<Vec<i64>, AllocError>
    ensures { IfOk result (λ los. los.items ≡ lows dims.now) }
{
    dims.iter().map(|dim| dim.lo).collect(alloc)
}

// Goes to the cell after this one, if there is one.
fn step(dims: &[Interval], index: &mut [i64]) -> bool
    requires rank { length index.old ≡ length dims.now }
    ensures { MatchBool result (next_cell dims.now index.old ≡ Some index.new) (next_cell dims.now index.old ≡ None) }
{
    let mut k = dims.len();
    while k > 0 {
        k -= 1;
        let dim = &dims[k];
        if index[k] < dim.hi {
            index[k] += 1;
            return true;
        }
        index[k] = dim.lo;
    }
    false
}
