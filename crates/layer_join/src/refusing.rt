// Why views aren't joined.
ghost use Rattle.std.specs.Prelude.{◌≡◌, ◌<◌, ◌≤◌, ◌+ℤ◌, ◌&&◌, not, length, IfSome};
ghost use Rattle.std.specs.List.{list_all};
ghost use Rattle.index_intervals.specs.Bounds.{is_index};
ghost use Rattle.index_intervals.specs.Members.{is_finite};
ghost use Rattle.index_transform.specs.Values.{is_word};
ghost use Rattle.layer_join.specs.Refusals.{is_too_deep, rank_of, can_slide_map, can_slide, first_stuck, first_infinite, unlike_refusal, concat_refusal, stack_refusal};
ghost use Rattle.layer_join.specs.Slid.{along, start_of};

use crate::error::JoinError;
use crate::sliding::{along, behind, shift_to, slid_offset};
use index_intervals::{Interval, is_index};
use index_transform::OutMap;
use stack_driver::{View, deepest, first_unlike, transform_of};

// Why views can't be laid over one another.
pub(crate) fn unlike_refusal(layers: &[View]) -> Option<JoinError>
    requires some { 0 < length layers.now }
    requires few { length layers.now ≤ 256 }
    ensures { result ≡ unlike_refusal layers.now }
{
    if is_too_deep(layers) {
        return Some(JoinError::Depth);
    }
    match first_unlike(layers) {
        Some(layer) => Some(JoinError::Layers {
            layer: layer as u32,
        }),
        None => None,
    }
}

// Why views can't be put behind one another.
pub(crate) fn concat_refusal(layers: &[View], axis: u32) -> Option<JoinError>
    requires some { 0 < length layers.now }
    requires few { length layers.now ≤ 256 }
    ensures { result ≡ concat_refusal axis layers.now }
{
    let first = unlike_refusal(layers);
    if first.is_some() {
        return first;
    }
    let axis = axis as usize;
    if axis >= rank_of(layers) {
        return Some(JoinError::Axis);
    }
    if let Some(layer) = first_infinite(layers, axis) {
        return Some(JoinError::Unbounded {
            layer: layer as u32,
        });
    }
    match first_stuck(layers, axis) {
        Some(layer) => Some(JoinError::Overflow {
            layer: layer as u32,
        }),
        None => None,
    }
}

// Why views can't be put beside one another.
pub(crate) fn stack_refusal(layers: &[View], axis: u32) -> Option<JoinError>
    requires some { 0 < length layers.now }
    requires few { length layers.now ≤ 256 }
    ensures { result ≡ stack_refusal axis layers.now }
{
    let first = unlike_refusal(layers);
    if first.is_some() {
        return first;
    }
    let rank = rank_of(layers);
    if axis as usize > rank {
        return Some(JoinError::Axis);
    }
    if rank >= 32 {
        return Some(JoinError::Rank);
    }
    None
}

// Whether casts and stacks would stand more than 16 deep in a stack of some views.
fn is_too_deep(layers: &[View]) -> bool
    ensures { result ≡ is_too_deep layers.now }
{
    deepest(layers) > 15
}

// The rank of the first of some views.
fn rank_of(layers: &[View]) -> usize
    requires { 0 < length layers.now }
    ensures { result ≡ rank_of layers.now }
{
    transform_of(&layers[0]).domain().dims.items().len()
}

// The first view whose interval on an axis is infinite.
fn first_infinite(layers: &[View], axis: usize) -> Option<usize>
    ensures value { result ≡ first_infinite axis layers.now }
    ensures within { IfSome result (λ layer. layer < length layers.now) }
{
    layers.iter().position(|v| is_infinite(v, axis))
}

fn is_infinite(v: &View, axis: usize) -> bool
    ensures { result ≡ not (is_finite (along axis v.now)) }
{
    !along(v, axis).is_finite()
}

// The first view that can't move to where the one before it ends.
fn first_stuck(layers: &[View], axis: usize) -> Option<usize>
    requires some { 0 < length layers.now }
    ensures value { result ≡ first_stuck (start_of axis layers.now) 0 axis layers.now }
    ensures within { IfSome result (λ layer. layer < length layers.now) }
{
    let mut next = along(&layers[0], axis).lo;
    for (k, v) in layers.iter().enumerate() {
        if !can_slide(v, axis, shift_to(next, v, axis)) {
            return Some(k);
        }
        next = behind(next, v, axis);
    }
    None
}

// Whether a view can be moved by a number along an axis.
fn can_slide(v: &View, axis: usize, by: i64) -> bool
    ensures { result ≡ can_slide axis by v.now }
{
    can_slide_dim(&along(v, axis), by) && can_slide_maps(transform_of(v).maps(), axis, by)
}

// Whether both bounds of an interval are finite indices, once they are moved by a number.
fn can_slide_dim(dim: &Interval, by: i64) -> bool
    ensures { result ≡ (is_index (dim.now.lo +ℤ by) && is_index (dim.now.hi +ℤ by)) }
{
    is_index(sum(dim.lo, by)) && is_index(sum(dim.hi, by))
}

fn sum(x: i64, by: i64) -> i128
    ensures { result ≡ x +ℤ by }
{
    i128::from(x) + i128::from(by)
}

fn can_slide_maps(maps: &[OutMap], axis: usize, by: i64) -> bool
    ensures { result ≡ list_all (can_slide_map axis by) maps.now }
{
    maps.iter().all(|map| can_slide_map(map, axis, by))
}

fn can_slide_map(map: &OutMap, axis: usize, by: i64) -> bool
    ensures { result ≡ can_slide_map axis by map.now }
{
    match map {
        OutMap::Constant { .. } => true,
        OutMap::Strided {
            offset,
            stride,
            dim,
        } => *dim as usize != axis || is_word(slid_offset(by, *offset, *stride)),
        OutMap::Indexed { .. } => true,
    }
}

// Whether a number fits 64 bits with a sign.
fn is_word(x: i128) -> bool
    ensures { result ≡ is_word x }
{
    i128::from(i64::MIN) <= x && x <= i128::from(i64::MAX)
}
