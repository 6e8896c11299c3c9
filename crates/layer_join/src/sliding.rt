// Views moved along an axis.
ghost use Rattle.std.specs.Prelude.{◌≡◌, ◌<◌, ◌≤ℤ◌, ◌+ℤ◌, ◌-ℤ◌, true, negsuc, pos, IsTrue, IfOk, OnOk, length, map, slice_index_or, None};
ghost use Rattle.std.specs.List.{AllByRecursion, list_all};
ghost use Rattle.index_intervals.specs.Bounds.{IsIndex};
ghost use Rattle.index_transform.specs.declared.map.OutMap.TheVariants.{Strided};
ghost use Rattle.stack_driver.specs.Reading.{point};
ghost use Rattle.stack_driver.specs.Views.{look_of};
ghost use Rattle.layer_join.specs.Slid.{slid, slid_dims, slid_offset, slid_map, slid_transform, slid_view, along, shift_to, behind, start_of};
ghost use Rattle.layer_join.specs.Refusals.{can_slide_map, can_slide, first_stuck};
ghost use Rattle.layer_join.specs.Joins.{is_ordered_along, moved_layers};

use cells::List;
use index_intervals::Interval;
use index_transform::{Domain, OutMap, Transform, copied_map, copied_names};
use stack_driver::{View, set_transform, transform_of};
use std::alloc::{AllocError, Global};

// A view's interval on an axis.
pub(crate) fn along(v: &View, axis: usize) -> Interval
    ensures { result ≡ along axis v.now }
{
    match transform_of(v).domain().dims.items().get(axis) {
        Some(dim) => *dim,
        None => Interval {
            lo: 0,
            hi: 0,
            lo_implicit: false,
            hi_implicit: false,
        },
    }
}

// By how much a view moves so that its lower bound on an axis comes to an index.
pub(crate) fn shift_to(next: i64, v: &View, axis: usize) -> i64
    requires above { negsuc 4611686018427387902 ≤ℤ next }
    requires below { next ≤ℤ pos 4611686018427387903 }
    ensures { result ≡ shift_to next axis v.now }
{
    let dim = along(v, axis);
    next - dim.lo
}

// The index behind a view that moves so that its lower bound comes to an index.
pub(crate) fn behind(next: i64, v: &View, axis: usize) -> i64
    requires above { negsuc 4611686018427387902 ≤ℤ next }
    requires below { next ≤ℤ pos 4611686018427387903 }
    requires able { IsTrue (can_slide axis (shift_to next axis v.now) v.now) }
    ensures value { result ≡ behind next axis v.now }
    ensures above { negsuc 4611686018427387902 ≤ℤ result }
    ensures below { result ≤ℤ pos 4611686018427387903 }
{
    index_behind(&along(v, axis), next)
}

fn index_behind(dim: &Interval, next: i64) -> i64
    requires above { negsuc 4611686018427387902 ≤ℤ next }
    requires below { next ≤ℤ pos 4611686018427387903 }
    requires end { IsIndex (dim.now.hi +ℤ (next -ℤ dim.now.lo)) }
    ensures { result ≡ dim.now.hi +ℤ (next -ℤ dim.now.lo) +ℤ pos 1 }
{
    dim.hi + (next - dim.lo) + 1
}

// The offset of a map that goes from an axis, once that is moved by a number.
pub(crate) fn slid_offset(by: i64, offset: i64, stride: i64) -> i128
    ensures { result ≡ slid_offset by offset stride }
{
    i128::from(offset) - i128::from(stride) * i128::from(by)
}

// Looks at each view's interval on an axis: what its type says of one then holds of all.
pub(crate) fn look_along(layers: &[View], axis: usize)
    ensures { IsTrue (list_all (is_ordered_along axis) layers.now) }
{
    for v in layers {
        look_at(v, axis);
    }
}

fn look_at(v: &View, axis: usize)
    ensures { is_ordered_along axis v.now ≡ true }
{
    let dim = along(v, axis);
    let _ = &dim.lo;
}

// Views of which each is moved along an axis to where the one before it ends.
pub(crate) fn moved_layers(
    alloc: Global,
    layers: Vec<View>,
    axis: usize,
) -> Result<Vec<View>, AllocError>
    requires some { 0 < length layers.items }
    requires axes { AllByRecursion (λ v. axis < length (look_of v).dims) layers.items }
    requires able { first_stuck (start_of axis layers.items) 0 axis layers.items ≡ None }
    ensures { IfOk result (λ moved. moved.items ≡ moved_layers axis layers.items) }
{
    let mut layers = layers;
    move_layers(alloc, layers.as_mut_slice(), axis)?;
    Ok(layers)
}

fn move_layers(alloc: Global, layers: &mut [View], axis: usize) -> Result<(), AllocError>
    requires some { 0 < length layers.old }
    requires axes { AllByRecursion (λ v. axis < length (look_of v).dims) layers.old }
    requires able { first_stuck (start_of axis layers.old) 0 axis layers.old ≡ None }
    ensures { OnOk result (layers.new ≡ moved_layers axis layers.old) }
{
    let mut next = along(&layers[0], axis).lo;
    for k in 0..layers.len() {
        next = move_to(alloc, &mut layers[k], axis, next)?;
    }
    Ok(())
}

// Moves a view along an axis so that its lower bound comes to an index, and gives the index behind it then.
fn move_to(alloc: Global, v: &mut View, axis: usize, next: i64) -> Result<i64, AllocError>
    requires above { negsuc 4611686018427387902 ≤ℤ next }
    requires below { next ≤ℤ pos 4611686018427387903 }
    requires axis { axis < length (look_of v.old).dims }
    requires able { IsTrue (can_slide axis (shift_to next axis v.old) v.old) }
    ensures view { OnOk result (v.new ≡ slid_view axis (shift_to next axis v.old) v.old) }
    ensures value { IfOk result (λ after. after ≡ behind next axis v.old) }
    ensures above { IfOk result (λ after. negsuc 4611686018427387902 ≤ℤ after) }
    ensures below { IfOk result (λ after. after ≤ℤ pos 4611686018427387903) }
{
    let by = shift_to(next, v, axis);
    let after = behind(next, v, axis);
    slide(alloc, v, axis, by)?;
    Ok(after)
}

// Moves a view by a number along an axis.
fn slide(alloc: Global, v: &mut View, axis: usize, by: i64) -> Result<(), AllocError>
    requires axis { axis < length (look_of v.old).dims }
    requires able { IsTrue (can_slide axis by v.old) }
    ensures { OnOk result (v.new ≡ slid_view axis by v.old) }
{
    let transform = slid_transform(alloc, transform_of(v), axis, by)?;
    set_transform(v, transform);
    Ok(())
}

// A transform from a domain of which one dimension is moved.
fn slid_transform(
    alloc: Global,
    t: &Transform,
    axis: usize,
    by: i64,
) -> Result<Transform, AllocError>
    requires axis { axis < length t.now.domain.dims }
    requires lo { IsIndex ((slice_index_or t.now.domain.dims axis point).lo +ℤ by) }
    requires hi { IsIndex ((slice_index_or t.now.domain.dims axis point).hi +ℤ by) }
    requires maps { IsTrue (list_all (can_slide_map axis by) t.now.maps) }
    ensures { IfOk result (λ u. u ≡ slid_transform axis by t.now) }
{
    let domain = slid_domain(alloc, t.domain(), axis, by)?;
    Ok(Transform::of(domain, slid_maps(alloc, t.maps(), axis, by)?))
}

fn slid_domain(alloc: Global, domain: &Domain, axis: usize, by: i64) -> Result<Domain, AllocError>
    requires axis { axis < length domain.now.dims }
    requires lo { IsIndex ((slice_index_or domain.now.dims axis point).lo +ℤ by) }
    requires hi { IsIndex ((slice_index_or domain.now.dims axis point).hi +ℤ by) }
    ensures { IfOk result (λ d. d ≡ record { dims = slid_dims axis by domain.now.dims; labels = domain.now.labels }) }
{
    let dims = slid_dims(alloc, domain.dims.items(), axis, by)?;
    Ok(Domain {
        dims: List::wrap(dims),
        labels: List::wrap(copied_names(alloc, domain.labels.items())?),
    })
}

fn slid_dims(
    alloc: Global,
    dims: &[Interval],
    axis: usize,
    by: i64,
) -> Result<Vec<Interval>, AllocError>
    requires axis { axis < length dims.now }
    requires lo { IsIndex ((slice_index_or dims.now axis point).lo +ℤ by) }
    requires hi { IsIndex ((slice_index_or dims.now axis point).hi +ℤ by) }
    ensures { IfOk result (λ moved. moved.items ≡ slid_dims axis by dims.now) }
{
    let mut moved = dims.to_vec(alloc)?;
    moved[axis] = slid(&dims[axis], by);
    Ok(moved)
}

// An interval moved by a number.
fn slid(dim: &Interval, by: i64) -> Interval
    requires lo { IsIndex (dim.now.lo +ℤ by) }
    requires hi { IsIndex (dim.now.hi +ℤ by) }
    ensures { result ≡ slid by dim.now }
{
    Interval {
        lo: dim.lo + by,
        hi: dim.hi + by,
        lo_implicit: dim.lo_implicit,
        hi_implicit: dim.hi_implicit,
    }
}

fn slid_maps(
    alloc: Global,
    maps: &[OutMap],
    axis: usize,
    by: i64,
) -> Result<Vec<OutMap>, AllocError>
    requires { IsTrue (list_all (can_slide_map axis by) maps.now) }
    ensures { IfOk result (λ moved. moved.items ≡ map (slid_map axis by) maps.now) }
{
    let mut moved = Vec::with_capacity(alloc, maps.len())?;
    for map in maps {
        moved.push(slid_map(alloc, map, axis, by)?)?;
    }
    Ok(moved)
}

fn slid_map(alloc: Global, map: &OutMap, axis: usize, by: i64) -> Result<OutMap, AllocError>
    requires { IsTrue (can_slide_map axis by map.now) }
    ensures { IfOk result (λ moved. moved ≡ slid_map axis by map.now) }
{
    match map {
        OutMap::Strided {
            offset,
            stride,
            dim,
        } => Ok(slid_strided(*offset, *stride, *dim, axis, by)),
        _ => copied_map(alloc, map),
    }
}

fn slid_strided(offset: i64, stride: i64, dim: u32, axis: usize, by: i64) -> OutMap
    requires { IsTrue (can_slide_map axis by (Strided offset stride dim)) }
    ensures { result ≡ slid_map axis by (Strided offset stride dim) }
{
    if dim as usize == axis {
        OutMap::Strided {
            offset: slid_offset(by, offset, stride) as i64,
            stride,
            dim,
        }
    } else {
        OutMap::Strided {
            offset,
            stride,
            dim,
        }
    }
}
