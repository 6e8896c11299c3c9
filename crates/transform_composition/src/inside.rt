ghost use Rattle.std.specs.Prelude.{◌≡◌, ◌<◌, not, ◌+ℤ◌, ◌*ℤ◌, length, IsTrue, IfSome};
ghost use Rattle.std.specs.List.{list_all};
ghost use Rattle.index_transform.specs.Maps.{is_map};
ghost use Rattle.index_transform.specs.Bounds.{is_index};
ghost use Rattle.index_transform.specs.Members.{effective_lo, effective_hi};
ghost use Rattle.index_transform.specs.Values.{is_effective};
ghost use Rattle.transform_composition.specs.Inside.{goes_down, end_inside, are_ends_inside, is_inside_by, first_outside_by};

use index_transform::{INFINITY, Interval, OutMap, is_effective, is_index, scaled};

// Whether a number is an effective member of the interval.
fn admits(outer: &Interval, x: i128) -> bool
    ensures { result ≡ is_effective outer.now x }
{
    is_index(x) && is_effective(outer, x as i64)
}

// Whether an infinite end goes to minus infinity by this stride.
fn goes_down(stride: i64, bound: i64) -> bool
    ensures { result ≡ goes_down stride bound }
{
    if stride < 0 { bound > 0 } else { bound < 0 }
}

fn is_unlimited_below(outer: &Interval) -> bool
    ensures { result ≡ not (is_index (effective_lo outer.now)) }
{
    outer.lo_implicit || outer.lo == -INFINITY
}

fn is_unlimited_above(outer: &Interval) -> bool
    ensures { result ≡ not (is_index (effective_hi outer.now)) }
{
    outer.hi_implicit || outer.hi == INFINITY
}

// Whether an end of a tightened interval goes to a number of the outer interval, or to an infinity that it has.
fn end_inside(outer: &Interval, offset: i64, stride: i64, bound: i64) -> bool
    ensures { result ≡ end_inside outer.now offset stride bound }
{
    if is_index(bound.into()) {
        admits(outer, scaled(offset, stride, bound))
    } else if goes_down(stride, bound) {
        is_unlimited_below(outer)
    } else {
        is_unlimited_above(outer)
    }
}

// Whether every number from the interval goes to one of the outer interval.
fn are_ends_inside(dim: &Interval, outer: &Interval, offset: i64, stride: i64) -> bool
    ensures { result ≡ are_ends_inside dim.now outer.now offset stride }
{
    dim.hi < dim.lo
        || end_inside(outer, offset, stride, dim.lo) && end_inside(outer, offset, stride, dim.hi)
}

// Whether every number of the map lies in the outer interval, as indexing goes.
fn is_inside_by(dims: &[Interval], outer: &Interval, map: &OutMap) -> bool
    requires { IsTrue (is_map dims.now map.now) }
    ensures { result ≡ is_inside_by dims.now outer.now map.now }
{
    match map {
        OutMap::Constant { offset } => admits(outer, (*offset).into()),
        OutMap::Strided {
            offset,
            stride,
            dim,
        } => are_ends_inside(&dims[*dim as usize], outer, *offset, *stride),
        OutMap::Indexed {
            offset,
            stride,
            entries,
            ..
        } => are_inside(outer, *offset, *stride, entries.items()),
    }
}

fn are_inside(outer: &Interval, offset: i64, stride: i64, entries: &[i64]) -> bool
    ensures { result ≡ list_all (λ x. is_effective outer.now (offset +ℤ stride *ℤ x)) entries.now }
{
    entries
        .iter()
        .all(|x| admits(outer, scaled(offset, stride, *x)))
}

// The first output that leaves the outer interval.
pub(crate) fn first_outside(
    dims: &[Interval],
    outers: &[Interval],
    maps: &[OutMap],
) -> Option<usize>
    requires rank { length outers.now ≡ length maps.now }
    requires fit { IsTrue (list_all (is_map dims.now) maps.now) }
    ensures value { result ≡ first_outside_by dims.now outers.now maps.now }
    ensures bound { IfSome result (λ output. output < length maps.now) }
{
    for (j, map) in maps.iter().enumerate() {
        if !is_inside_by(dims, &outers[j], map) {
            return Some(j);
        }
    }
    None
}
