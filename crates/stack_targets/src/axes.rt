// Along which dimension a stack's layers stand one behind another, and which of them may have a cell by it.
ghost use Rattle.std.specs.Prelude.{◌≡◌, ◌≤◌, ◌<◌, length, map, IfSome};
ghost use Rattle.stack_targets.specs.Axes.{IsAxis, LackIndex, along, axis_of, begins_before, begins_by, column, dims_of, rise};

use index_intervals::Interval;
use stack_driver::{View, transform_of};

/// The first of so many dimensions along which no layer begins before the one that stands before it, and the last begins behind
/// the first.
pub(crate) fn axis_of(layers: &[View], rank: usize) -> Option<usize>
    ensures { result ≡ axis_of rank (map dims_of layers.now) }
{
    for axis in 0..rank {
        if rise(layers, axis) {
            return Some(axis);
        }
    }
    None
}

fn rise(layers: &[View], axis: usize) -> bool
    ensures { result ≡ rise (column axis (map dims_of layers.now)) }
{
    if layers.is_empty() {
        return false;
    }
    let first = along(&layers[0], axis);
    let mut last = first;
    for layer in layers {
        let next = along(layer, axis);
        if begins_before(&next, &last) {
            return false;
        }
        last = next;
    }
    begins_before(&first, &last)
}

// A view's interval along a dimension; the index 0 where it has no such dimension.
fn along(v: &View, axis: usize) -> Interval
    ensures { result ≡ along axis (dims_of v.now) }
{
    match transform_of(v).domain().dims.items().get(axis) {
        Some(dim) => *dim,
        None => Interval {
            lo: 0,
            hi: 0,
            lo_implicit: false,
            hi_implicit: false,
        },
    }
}

fn begins_before(dim: &Interval, other: &Interval) -> bool
    ensures { result ≡ begins_before dim.now other.now }
{
    dim.lo < other.lo
}

/// Behind which layers of a stack none has an index vector: those that begin along the stack's axis at it or before it, or all.
pub(crate) fn end_of(layers: &[View], axis: Option<usize>, index: &[i64]) -> usize
    requires { IfSome axis (IsAxis (length index.now) layers.now) }
    ensures few { result ≤ length layers.now }
    ensures behind { LackIndex result layers.now index.now }
{
    match axis {
        Some(axis) => begun(layers, axis, index),
        None => layers.len(),
    }
}

// How many layers begin along the axis at an index vector or before it.
fn begun(layers: &[View], axis: usize, index: &[i64]) -> usize
    requires { IsAxis (length index.now) layers.now axis }
    ensures few { result ≤ length layers.now }
    ensures behind { LackIndex result layers.now index.now }
{
    let mut low = 0;
    let mut high = layers.len();
    while low < high {
        let middle = low + (high - low) / 2;
        if begins_by(&layers[middle], axis, index) {
            low = middle + 1;
        } else {
            high = middle;
        }
    }
    high
}

// Whether a view begins along a dimension at an index vector or before it.
fn begins_by(v: &View, axis: usize, index: &[i64]) -> bool
    requires { axis < length index.now }
    ensures { result ≡ begins_by axis v.now index.now }
{
    let dim = along(v, axis);
    dim.lo <= index[axis]
}
