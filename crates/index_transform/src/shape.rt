ghost use Rattle.std.specs.Prelude.{◌≡◌, ◌<◌, ◌≤ℤ◌, not, ◌||◌, ◌+ℤ◌, ◌*ℤ◌, length, None, IsTrue, IfSome};
ghost use Rattle.std.specs.List.{All, list_all, list_any, zip, position_from};
ghost use Rattle.index_intervals.specs.Bounds.{are_bounds};
ghost use Rattle.index_transform.specs.Cells.{is_finite, cells_of};
ghost use Rattle.index_transform.specs.Maps.{is_map};
ghost use Rattle.index_transform.specs.Walks.{IsNonEmpty};
ghost use Rattle.index_transform.specs.Shapes.{is_below, leaves, ends_leave};

use crate::count::has_empty;
use crate::map::OutMap;
use crate::transform::Transform;
use crate::value::scaled;
use index_intervals::Interval;

impl Transform {
    ghost use Rattle.index_transform.specs.Shapes.{IsInShape, first_leaving};
    ghost use Rattle.index_transform.specs.Values.{value_at};

    /// The first output that leaves its size of a shape at some cell of the finite domain.
    ///
    /// It is seen at the two ends of a strided map and at the entries of an index array, without a step for each cell.
    /// A domain without a cell leaves no shape.
    pub fn first_leaving(&self, shape: &[u64]) -> Option<u32>
        requires finite { IsTrue (list_all is_finite self.now.domain.dims) }
        requires rank { length shape.now ≡ length self.now.maps }
        ensures value { result ≡ first_leaving self.now shape.now }
        ensures inside { result ≡ None → All (λ cell.
            IsInShape shape.now (value_at self.now cell)) (cells_of self.now.domain.dims) }
        ensures bound { IfSome result (λ output. output < length self.now.maps) }
    {
        first_leaving(self.domain().dims.items(), shape, self.maps())
    }
}

fn first_leaving(dims: &[Interval], shape: &[u64], maps: &[OutMap]) -> Option<u32>
    requires bounds { IsTrue (list_all are_bounds dims.now) }
    requires fit { IsTrue (list_all (is_map dims.now) maps.now) }
    requires rank { length shape.now ≡ length maps.now }
    requires few { length maps.now < 4294967296 }
    ensures value { result ≡ position_from (λ p. leaves dims.now p.0 p.1) 0 (zip shape.now maps.now) }
    ensures bound { IfSome result (λ output. output < length maps.now) }
{
    if has_empty(dims) {
        return None;
    }
    first_end_leaving(dims, shape, maps)
}

// The same where the domain has a cell, seen at the ends.
fn first_end_leaving(dims: &[Interval], shape: &[u64], maps: &[OutMap]) -> Option<u32>
    requires fit { IsTrue (list_all (is_map dims.now) maps.now) }
    requires rank { length shape.now ≡ length maps.now }
    requires few { length maps.now < 4294967296 }
    ensures value { result ≡ position_from (λ p. ends_leave dims.now p.0 p.1) 0 (zip shape.now maps.now) }
    ensures bound { IfSome result (λ output. output < length maps.now) }
{
    for (j, map) in maps.iter().enumerate() {
        if ends_leave(dims, shape[j], map) {
            return Some(j as u32);
        }
    }
    None
}

fn ends_leave(dims: &[Interval], size: u64, map: &OutMap) -> bool
    requires { IsTrue (is_map dims.now map.now) }
    ensures { result ≡ ends_leave dims.now size map.now }
{
    match map {
        OutMap::Constant { offset } => !is_below(size, (*offset).into()),
        OutMap::Strided {
            offset,
            stride,
            dim,
        } => bounds_leave(&dims[*dim as usize], size, *offset, *stride),
        OutMap::Indexed {
            offset,
            stride,
            entries,
            ..
        } => entries_leave(size, *offset, *stride, entries.items()),
    }
}

fn bounds_leave(dim: &Interval, size: u64, offset: i64, stride: i64) -> bool
    ensures { result ≡ (not (is_below size (offset +ℤ stride *ℤ dim.now.lo)) || not
        (is_below size (offset +ℤ stride *ℤ dim.now.hi))) }
{
    !is_below(size, scaled(offset, stride, dim.lo))
        || !is_below(size, scaled(offset, stride, dim.hi))
}

fn entries_leave(size: u64, offset: i64, stride: i64, entries: &[i64]) -> bool
    ensures { result ≡ list_any (λ x. not (is_below size (offset +ℤ stride *ℤ x))) entries.now }
{
    entries
        .iter()
        .any(|x| !is_below(size, scaled(offset, stride, *x)))
}

fn is_below(size: u64, x: i128) -> bool
    ensures { result ≡ is_below size x }
{
    0 <= x && x < i128::from(size)
}
