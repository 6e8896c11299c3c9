ghost use Rattle.std.specs.Prelude.{◌≡◌, ◌≢◌, ◌≤◌, ◌<◌, ◌⊎◌, ◌-ℤ◌, int_lt, if◌then◌else◌, unwrap_or, None, IfOk, IfErr, IfSome, OnOk, Ok, Err, true, pos, ◌+ℤ◌, [], length, List, ℤ, IsTrue, option_to_list};
ghost use Rattle.std.specs.List.{list_all};
ghost use Rattle.index_transform.specs.Maps.{is_plain, is_map};
ghost use Rattle.index_transform.specs.Bounds.{is_index};
ghost use Rattle.std.specs.Option.{ForSome};
ghost use Rattle.index_transform.specs.Edges.{preimage};
ghost use Rattle.index_transform.specs.Meet.{cross_at};
ghost use Rattle.transform_composition.specs.declared.error.ComposeError.{ComposeError};
ghost use Rattle.transform_composition.specs.Tightening.{tighten_answer, tightened, tight_lower, tight_upper, preimages, preimages_at, met, gathered_from, passes_at, passes_below, upper_passes, overflows_at, overflows_by, first_overflow_by, tight_dims, is_ordered, are_bounds};
ghost use Rattle.transform_composition.specs.Inside.{first_outside_by};
ghost use Rattle.index_transform.specs.Identity.{identity_over};
ghost use Rattle.index_transform.specs.Values.{value_at};
ghost use Rattle.transform_composition.specs.Agreeing.{GoesInto};
ghost use Rattle.transform_composition.specs.Meeting.{AreMet, KeepsReached};
ghost use Rattle.transform_composition.specs.Composing.{composed};

use crate::error::ComposeError;
use crate::inside::first_outside;
use index_transform::{
    Domain, Edge, Ends, INFINITY, Interval, OutMap, Transform, interval_of, is_index,
};
use std::alloc::{AllocError, Global};

/// Tightens the domain to the indices whose output numbers lie in the outer domain. Labels and maps stay.
///
/// A bound of a dimension that is implicit or infinite takes bound and flag of the meet of the pre-images, by the
/// strided maps from that dimension, of the outer intervals. A bound that is explicit and finite stays. The transform is
/// unchanged after a refusal.
///
/// # Errors
///
/// The first that holds:
/// - `Rank` where the outputs and the outer dimensions differ in number.
/// - `Overflow` with the first output whose pre-image gives a bound that is no finite index.
/// - `Outside` with the first output that has a number outside the outer effective interval.
/// - `Memory`, which may also come before an output outside is seen.
pub fn tighten(alloc: Global, t: &mut Transform, outer: &Domain) -> Result<(), ComposeError>
    ensures ok { OnOk result (tighten_answer t.old outer.now ≡ Ok t.new) }
    ensures err { IfErr result (λ e. e ≢ ComposeError.Memory → tighten_answer t.old outer.now ≡ Err e) }
    ensures unchanged { IfErr result (λ e. t.new ≡ t.old) }
    ensures values { OnOk result ((index : List ℤ) → value_at t.new index ≡ value_at t.old index) }
    ensures meets { OnOk result (AreMet t.old.domain.dims t.new.domain.dims outer.now.dims t.old.maps) }
    ensures reached { OnOk result (KeepsReached t.old t.new.domain.dims outer.now.dims) }
    ensures inside { OnOk result (GoesInto t.new.domain.dims t.new outer.now.dims) }
    ensures identity { OnOk result (IfOk (composed (identity_over outer.now) t.old) (λ u. u ≡ t.new)) }
{
    let dims = tightened(alloc, t.domain().dims.items(), outer.dims.items(), t.maps())?;
    t.set_dims(dims);
    Ok(())
}

// The lower edge of a dimension after tightening.
fn tight_lower(dim: u32, inner: &Interval, outers: &[Interval], maps: &[OutMap]) -> Edge
    requires rank { length outers.now ≡ length maps.now }
    requires plain { IsTrue (list_all is_plain maps.now) }
    ensures { result ≡ tight_lower dim inner.now outers.now maps.now }
{
    let old = Edge::lower(inner);
    match met(dim, outers, maps) {
        Some(met) if old.is_open() => met.lower,
        _ => old,
    }
}

// The upper edge of a dimension after tightening.
fn tight_upper(dim: u32, inner: &Interval, outers: &[Interval], maps: &[OutMap]) -> Edge
    requires rank { length outers.now ≡ length maps.now }
    requires plain { IsTrue (list_all is_plain maps.now) }
    ensures { result ≡ tight_upper dim inner.now outers.now maps.now }
{
    let old = Edge::upper(inner);
    match met(dim, outers, maps) {
        Some(met) if old.is_open() => met.upper,
        _ => old,
    }
}

// The meet of the pre-images along a dimension.
fn met(dim: u32, outers: &[Interval], maps: &[OutMap]) -> Option<Ends>
    requires rank { length outers.now ≡ length maps.now }
    requires plain { IsTrue (list_all is_plain maps.now) }
    ensures { result ≡ met (preimages preimage dim outers.now maps.now) }
{
    gathered(dim, outers, maps).map(|bounds| bounds.uncrossed())
}

// The greatest lower and the least upper bound of the pre-images along a dimension.
fn gathered(dim: u32, outers: &[Interval], maps: &[OutMap]) -> Option<Ends>
    requires rank { length outers.now ≡ length maps.now }
    requires plain { IsTrue (list_all is_plain maps.now) }
    ensures { result ≡ gathered_from None (preimages preimage dim outers.now maps.now) }
{
    let mut bounds = None;
    for (j, map) in maps.iter().enumerate() {
        bounds = within(bounds, preimage_by(dim, &outers[j], map));
    }
    bounds
}

// The pre-image, where the map goes from the dimension.
fn preimage_by(dim: u32, outer: &Interval, map: &OutMap) -> Option<Ends>
    requires { IsTrue (is_plain map.now) }
    ensures { option_to_list result ≡ preimages_at preimage dim outer.now map.now [] }
{
    match map {
        OutMap::Strided {
            offset,
            stride,
            dim: from,
        } if *from == dim => Some(Ends::preimage(outer, *offset, *stride)),
        _ => None,
    }
}

fn within(bounds: Option<Ends>, ends: Option<Ends>) -> Option<Ends>
    ensures { result ≡ gathered_from bounds (option_to_list ends) }
{
    match (bounds, ends) {
        (Some(bounds), Some(ends)) => Some(bounds.within(ends)),
        (Some(bounds), None) => Some(bounds),
        (None, ends) => ends,
    }
}

// Whether an edge is this finite bound, which is no finite index.
fn passes_at(edge: Option<i128>, tight: Option<i128>) -> bool
    ensures { result ≡ passes_at edge tight }
{
    match (edge, tight) {
        (Some(x), Some(y)) => x == y && !is_index(x),
        _ => false,
    }
}

// Whether an edge is this finite bound, and the number below it is no finite index.
fn passes_below(edge: Option<i128>, tight: Option<i128>) -> bool
    ensures { result ≡ passes_below edge tight }
{
    match (edge, tight) {
        (Some(x), Some(y)) => x == y && !is_after_index(x),
        _ => false,
    }
}

// Whether the number below is a finite index.
fn is_after_index(x: i128) -> bool
    ensures { result ≡ is_index (x -ℤ pos 1) }
{
    let limit = i128::from(INFINITY);
    1 - limit < x && x <= limit
}

fn cross_at(low: Option<i128>, high: Option<i128>) -> bool
    ensures { result ≡ cross_at low high }
{
    match (low, high) {
        (Some(x), Some(y)) => y < x && y < x - 1,
        _ => false,
    }
}

// Whether the meet's upper bound comes from this pre-image and is no finite index.
fn upper_passes(bounds: Ends, ends: Ends) -> bool
    ensures { result ≡ upper_passes bounds ends }
{
    if cross_at(bounds.lower.at, bounds.upper.at) {
        passes_below(ends.lower.at, bounds.lower.at)
    } else {
        passes_at(ends.upper.at, bounds.upper.at)
    }
}

// Whether a bound of the dimension takes from this pre-image a bound that passes the range of indices.
fn overflows_at(inner: &Interval, bounds: Option<Ends>, ends: Ends) -> bool
    ensures { result ≡ overflows_at inner.now bounds ends }
{
    match bounds {
        Some(bounds) => {
            Edge::lower(inner).is_open() && passes_at(ends.lower.at, bounds.lower.at)
                || Edge::upper(inner).is_open() && upper_passes(bounds, ends)
        }
        None => false,
    }
}

// Whether some bound of the domain would by this output.
fn overflows_by(
    inners: &[Interval],
    outers: &[Interval],
    maps: &[OutMap],
    outer: &Interval,
    map: &OutMap,
) -> bool
    requires rank { length outers.now ≡ length maps.now }
    requires plain { IsTrue (list_all is_plain maps.now) }
    requires this_plain { IsTrue (is_plain map.now) }
    requires this_fits { IsTrue (is_map inners.now map.now) }
    ensures { result ≡ overflows_by inners.now outers.now maps.now outer.now map.now }
{
    match map {
        OutMap::Strided {
            offset,
            stride,
            dim,
        } => {
            let bounds = gathered(*dim, outers, maps);
            overflows_at(
                &inners[*dim as usize],
                bounds,
                Ends::preimage(outer, *offset, *stride),
            )
        }
        _ => false,
    }
}

// The first output by which a bound of the domain would pass the range of indices.
fn first_overflow(inners: &[Interval], outers: &[Interval], maps: &[OutMap]) -> Option<usize>
    requires rank { length outers.now ≡ length maps.now }
    requires plain { IsTrue (list_all is_plain maps.now) }
    requires fit { IsTrue (list_all (is_map inners.now) maps.now) }
    ensures value { result ≡ first_overflow_by inners.now outers.now maps.now }
    ensures bound { IfSome result (λ output. output < length maps.now) }
{
    for (j, map) in maps.iter().enumerate() {
        if overflows_by(inners, outers, maps, &outers[j], map) {
            return Some(j);
        }
    }
    None
}

// The tightened dimensions, or the first reason against them. The maps go from them too.
pub(crate) fn tightened(
    alloc: Global,
    inners: &[Interval],
    outers: &[Interval],
    maps: &[OutMap],
) -> Result<Vec<Interval>, ComposeError>
    requires few { length inners.now ≤ 32 }
    requires few_maps { length maps.now ≤ 32 }
    requires plain { IsTrue (list_all is_plain maps.now) }
    requires fit { IsTrue (list_all (is_map inners.now) maps.now) }
    ensures ok { IfOk result (λ dims. tightened inners.now outers.now maps.now ≡ Ok dims.items) }
    ensures err { IfErr result (λ e. e ≢ ComposeError.Memory → tightened inners.now outers.now maps.now ≡ Err e) }
    ensures fit { IfOk result (λ dims. IsTrue (list_all (is_map dims.items) maps.now)) }
    ensures rank { IfOk result (λ dims. length dims.items ≡ length inners.now) }
    ensures outer_rank { OnOk result (length maps.now ≡ length outers.now) }
    ensures inside { IfOk result (λ dims. first_outside_by dims.items outers.now maps.now ≡ None) }
    ensures bounds { IfOk result (λ dims. IsTrue (list_all are_bounds dims.items)) }
    ensures ordered { OnOk result (list_all is_ordered inners.now ≡ true) }
{
    if maps.len() != outers.len() {
        return Err(ComposeError::Rank);
    }
    if let Some(output) = first_overflow(inners, outers, maps) {
        return Err(ComposeError::Overflow {
            output: output as u32,
        });
    }
    let dims = tight_dims(alloc, inners, outers, maps)?;
    match first_outside(&dims, outers, maps) {
        Some(output) => Err(ComposeError::Outside {
            output: output as u32,
        }),
        None => Ok(dims),
    }
}

// The tightened dimensions, where no output makes a bound overflow.
fn tight_dims(
    alloc: Global,
    inners: &[Interval],
    outers: &[Interval],
    maps: &[OutMap],
) -> Result<Vec<Interval>, AllocError>
    requires rank { length outers.now ≡ length maps.now }
    requires plain { IsTrue (list_all is_plain maps.now) }
    requires few { length inners.now ≤ 32 }
    requires fits { first_overflow_by inners.now outers.now maps.now ≡ None }
    ensures dims { IfOk result (λ dims. dims.items ≡ tight_dims 0 inners.now outers.now maps.now) }
    ensures ordered { OnOk result (list_all is_ordered inners.now ≡ true) }
    ensures bounds { IfOk result (λ dims. IsTrue (list_all are_bounds dims.items)) }
{
    let mut dims = Vec::with_capacity(alloc, inners.len())?;
    for (k, inner) in inners.iter().enumerate() {
        let _ = &inner.lo;
        let lower = tight_lower(k as u32, inner, outers, maps);
        let upper = tight_upper(k as u32, inner, outers, maps);
        dims.push(interval_of(lower, upper))?;
    }
    Ok(dims)
}
