ghost use Rattle.std.specs.Prelude.{◌≡◌, ◌≢◌, ◌≤◌, ◌<◌, ◌+ℤ◌, ◌*ℤ◌, ◌||◌, IsTrue, IfOk, IfErr, IfSome, Ok, Err, None, false, not, length, map};
ghost use Rattle.std.specs.List.{list_all, list_any, position_from};
ghost use Rattle.index_transform.specs.Maps.{is_map};
ghost use Rattle.transform_composition.specs.Tightening.{on_dims};
ghost use Rattle.index_transform.specs.Bounds.{are_bounds};
ghost use Rattle.transform_composition.specs.Inside.{first_outside_by};
ghost use Rattle.transform_composition.specs.Agreeing.{Agrees, GoesInto};
ghost use Rattle.transform_composition.specs.Meeting.{KeepsComposed};
ghost use Rattle.transform_composition.specs.Reading.{has_array_along};
ghost use Rattle.transform_composition.specs.declared.error.ComposeError.{ComposeError};
ghost use Rattle.transform_composition.specs.Composing.{strided_over, composed_map, is_word, passes_over, passes_word, is_too_large, closed, closed_along, closed_dims, joined, composed};

use crate::error::ComposeError;
use crate::reading::{has_array_along, read_dims, read_entries, sizes_of};
use crate::tightening::tightened;
use index_transform::{
    Domain, Index, Interval, List, MOST_ENTRIES, OutMap, Sizes, Transform, copied_names,
    count_cells, scaled,
};
use std::alloc::{AllocError, Global};

/// The transform that gives at an index vector the outer one's value at the inner one's value.
///
/// Its domain is the inner one with its labels, tightened by the outer domain as `tighten` does it; a dimension on which
/// an index array of the result depends has explicit bounds. An outer constant map stays. An outer strided map takes the
/// form of its inner map, with the same index array. An outer indexed map keeps offset and stride, and its array is read
/// at the inner values: it depends on the dimensions by which it is read.
///
/// # Errors
///
/// The first that holds:
/// - `Rank` where the inner outputs and the outer dimensions differ in number.
/// - `Overflow` with the first inner output whose pre-image gives a bound that is no finite index.
/// - `Outside` with the first inner output that has a number outside the outer effective interval.
/// - `Overflow` with the first output whose offset or stride passes 64 bits.
/// - `TooLarge` with the first output whose index array has more than 2^22 entries.
/// - `Memory`, which may come before another is seen.
///
/// TensorStore, "Index space", "Index transform".
pub fn compose(
    alloc: Global,
    outer: &Transform,
    inner: &Transform,
) -> Result<Transform, ComposeError>
    ensures ok { IfOk result (λ t. composed outer.now inner.now ≡ Ok t) }
    ensures err { IfErr result (λ e. e ≢ ComposeError.Memory → composed outer.now inner.now ≡ Err e) }
    ensures agrees { IfOk result (λ t. Agrees t outer.now inner.now) }
    ensures reached { IfOk result (λ t. KeepsComposed t inner.now outer.now.domain.dims) }
    ensures inside { IfOk result (λ t. GoesInto t.domain.dims inner.now outer.now.domain.dims) }
{
    let dims = tightened(
        alloc,
        inner.domain().dims.items(),
        outer.domain().dims.items(),
        inner.maps(),
    )?;
    if let Some(output) = first_passing(outer.maps(), inner.maps()) {
        return Err(ComposeError::Overflow {
            output: output as u32,
        });
    }
    if let Some(output) = first_too_large(alloc, &dims, inner.maps(), outer.maps())? {
        return Err(ComposeError::TooLarge {
            output: output as u32,
        });
    }
    Ok(joined(alloc, dims, outer, inner)?)
}

// The first output whose offset or stride passes 64 bits.
fn first_passing(outers: &[OutMap], inners: &[OutMap]) -> Option<usize>
    ensures value { result ≡ position_from (passes_word inners.now) 0 outers.now }
    ensures bound { IfSome result (λ output. output < length outers.now) }
{
    outers.iter().position(|map| passes_word(inners, map))
}

fn passes_word(inners: &[OutMap], outer: &OutMap) -> bool
    ensures { result ≡ passes_word inners.now outer.now }
{
    match outer {
        OutMap::Strided {
            offset,
            stride,
            dim,
        } => {
            let offset = *offset;
            match inners.get(*dim as usize) {
                Some(inner) => passes_over(offset, *stride, inner),
                None => false,
            }
        }
        _ => false,
    }
}

fn passes_over(offset: i64, stride: i64, inner: &OutMap) -> bool
    ensures { result ≡ passes_over offset stride inner.now }
{
    match inner {
        OutMap::Constant { offset: p } => !is_word(scaled(offset, stride, *p)),
        OutMap::Strided {
            offset: p,
            stride: q,
            ..
        } => passes_either(offset, stride, *p, *q),
        OutMap::Indexed {
            offset: p,
            stride: q,
            ..
        } => passes_either(offset, stride, *p, *q),
    }
}

// Whether offset or stride of a map over one of offset `p` and stride `q` passes 64 bits.
fn passes_either(offset: i64, stride: i64, p: i64, q: i64) -> bool
    ensures { result ≡ (not (is_word (offset +ℤ stride *ℤ p)) || not (is_word (stride *ℤ q))) }
{
    !is_word(scaled(offset, stride, p)) || !is_word(product(stride, q))
}

fn is_word(x: i128) -> bool
    ensures { result ≡ is_word x }
{
    i128::from(i64::MIN) <= x && x <= i128::from(i64::MAX)
}

fn product(x: i64, y: i64) -> i128
    ensures { result ≡ x *ℤ y }
{
    i128::from(x) * i128::from(y)
}

fn offset_over(offset: i64, stride: i64, p: i64) -> i64
    requires { IsTrue (is_word (offset +ℤ stride *ℤ p)) }
    ensures { result ≡ offset +ℤ stride *ℤ p }
{
    scaled(offset, stride, p) as i64
}

fn stride_over(stride: i64, q: i64) -> i64
    requires { IsTrue (is_word (stride *ℤ q)) }
    ensures { result ≡ stride *ℤ q }
{
    product(stride, q) as i64
}

// The first output whose array, read at the inner values, has too many entries.
fn first_too_large(
    alloc: Global,
    dims: &[Interval],
    inners: &[OutMap],
    outers: &[OutMap],
) -> Result<Option<usize>, AllocError>
    requires few { length dims.now ≤ 32 }
    ensures value { IfOk result (λ first. first ≡ position_from (is_too_large dims.now inners.now) 0 outers.now) }
    ensures bound { IfOk result (λ first. IfSome first (λ output. output < length outers.now)) }
{
    for (output, map) in outers.iter().enumerate() {
        if is_too_large(alloc, dims, inners, map)? {
            return Ok(Some(output));
        }
    }
    Ok(None)
}

fn is_too_large(
    alloc: Global,
    dims: &[Interval],
    inners: &[OutMap],
    outer: &OutMap,
) -> Result<bool, AllocError>
    requires few { length dims.now ≤ 32 }
    ensures { IfOk result (λ large. large ≡ is_too_large dims.now inners.now outer.now) }
{
    match outer {
        OutMap::Indexed { sizes, .. } => {
            let read = read_dims(alloc, dims, sizes.items(), inners)?;
            let sizes = sizes_of(alloc, &read)?;
            Ok(count_cells(&sizes, MOST_ENTRIES).is_none())
        }
        _ => Ok(false),
    }
}

// The composed transform over the tightened dimensions.
fn joined(
    alloc: Global,
    dims: Vec<Interval>,
    outer: &Transform,
    inner: &Transform,
) -> Result<Transform, AllocError>
    requires rank { length inner.now.maps ≡ length outer.now.domain.dims }
    requires same { length dims.items ≡ length inner.now.domain.dims }
    requires fit { IsTrue (list_all (is_map dims.items) inner.now.maps) }
    requires inside { first_outside_by dims.items outer.now.domain.dims inner.now.maps ≡ None }
    requires bounds { IsTrue (list_all are_bounds dims.items) }
    requires fits { position_from (passes_word inner.now.maps) 0 outer.now.maps ≡ None }
    requires small { position_from (is_too_large dims.items inner.now.maps) 0 outer.now.maps ≡ None }
    ensures { IfOk result (λ t. t ≡ joined outer.now (on_dims inner.now dims.items)) }
{
    let maps = composed_maps(
        alloc,
        outer.domain().dims.items(),
        &dims,
        inner.maps(),
        outer.maps(),
    )?;
    let labels = copied_names(alloc, inner.domain().labels.items())?;
    let domain = Domain {
        dims: List::wrap(closed_dims(dims, &maps)),
        labels: List::wrap(labels),
    };
    Ok(Transform::of(domain, maps))
}

// Each outer map over the inner ones.
fn composed_maps(
    alloc: Global,
    outers: &[Interval],
    dims: &[Interval],
    inners: &[OutMap],
    maps: &[OutMap],
) -> Result<Vec<OutMap>, AllocError>
    requires few { length dims.now ≤ 32 }
    requires rank { length inners.now ≡ length outers.now }
    requires fit { IsTrue (list_all (is_map dims.now) inners.now) }
    requires inside { first_outside_by dims.now outers.now inners.now ≡ None }
    requires bounds { IsTrue (list_all are_bounds dims.now) }
    requires outer_fit { IsTrue (list_all (is_map outers.now) maps.now) }
    requires fits { position_from (passes_word inners.now) 0 maps.now ≡ None }
    requires small { position_from (is_too_large dims.now inners.now) 0 maps.now ≡ None }
    ensures { IfOk result (λ made. made.items ≡ map (composed_map outers.now dims.now inners.now) maps.now) }
{
    let mut made = Vec::with_capacity(alloc, maps.len())?;
    for map in maps {
        made.push(composed_map(alloc, outers, dims, inners, map)?)?;
    }
    Ok(made)
}

// An outer map over the inner ones.
fn composed_map(
    alloc: Global,
    outers: &[Interval],
    dims: &[Interval],
    inners: &[OutMap],
    map: &OutMap,
) -> Result<OutMap, AllocError>
    requires few { length dims.now ≤ 32 }
    requires rank { length inners.now ≡ length outers.now }
    requires fit { IsTrue (list_all (is_map dims.now) inners.now) }
    requires inside { first_outside_by dims.now outers.now inners.now ≡ None }
    requires bounds { IsTrue (list_all are_bounds dims.now) }
    requires outer_fit { IsTrue (is_map outers.now map.now) }
    requires fits { passes_word inners.now map.now ≡ false }
    requires small { is_too_large dims.now inners.now map.now ≡ false }
    ensures { IfOk result (λ made. made ≡ composed_map outers.now dims.now inners.now map.now) }
{
    match map {
        OutMap::Constant { offset } => Ok(OutMap::Constant { offset: *offset }),
        OutMap::Strided {
            offset,
            stride,
            dim,
        } => strided_over(alloc, *offset, *stride, &inners[*dim as usize]),
        OutMap::Indexed {
            offset,
            stride,
            sizes,
            entries,
        } => {
            let read = read_dims(alloc, dims, sizes.items(), inners)?;
            let gathered = read_entries(
                alloc,
                &read,
                outers,
                sizes.items(),
                entries.items(),
                dims,
                inners,
            )?;
            Ok(OutMap::Indexed {
                offset: *offset,
                stride: *stride,
                sizes: Sizes::wrap(sizes_of(alloc, &read)?),
                entries: Index::wrap(gathered),
            })
        }
    }
}

// An outer offset and stride over an inner map.
fn strided_over(
    alloc: Global,
    offset: i64,
    stride: i64,
    inner: &OutMap,
) -> Result<OutMap, AllocError>
    requires { passes_over offset stride inner.now ≡ false }
    ensures { IfOk result (λ made. made ≡ strided_over offset stride inner.now) }
{
    match inner {
        OutMap::Constant { offset: p } => Ok(OutMap::Constant {
            offset: offset_over(offset, stride, *p),
        }),
        OutMap::Strided {
            offset: p,
            stride: q,
            dim,
        } => Ok(OutMap::Strided {
            offset: offset_over(offset, stride, *p),
            stride: stride_over(stride, *q),
            dim: *dim,
        }),
        OutMap::Indexed {
            offset: p,
            stride: q,
            sizes,
            entries,
        } => Ok(OutMap::Indexed {
            offset: offset_over(offset, stride, *p),
            stride: stride_over(stride, *q),
            sizes: Sizes::wrap(Vec::from_slice(alloc, sizes.items())?),
            entries: Index::wrap(Vec::from_slice(alloc, entries.items())?),
        }),
    }
}

// The dimensions, each explicit on which an index array of a map depends.
fn closed_dims(mut dims: Vec<Interval>, maps: &[OutMap]) -> Vec<Interval>
    requires few { length dims.items ≤ 32 }
    ensures { result.items ≡ closed_dims 0 dims.items maps.now }
{
    for (k, dim) in dims.iter_mut().enumerate() {
        *dim = closed_along(dim, maps, k as u32);
    }
    dims
}

fn closed_along(dim: &Interval, maps: &[OutMap], k: u32) -> Interval
    ensures { result ≡ closed_along k maps.now dim.now }
{
    if is_array_along(maps, k) {
        closed(dim)
    } else {
        *dim
    }
}

fn is_array_along(maps: &[OutMap], k: u32) -> bool
    ensures { result ≡ list_any (has_array_along k) maps.now }
{
    maps.iter().any(|map| has_array_along(map, k))
}

fn closed(dim: &Interval) -> Interval
    ensures { result ≡ closed dim.now }
{
    Interval {
        lo: dim.lo,
        hi: dim.hi,
        lo_implicit: false,
        hi_implicit: false,
    }
}
