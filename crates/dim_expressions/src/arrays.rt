// Lists of indices as index arrays.
ghost use Rattle.std.specs.List.{All, list_all, list_any};
ghost use Rattle.std.specs.Prelude.{◌<◌, ◌≡◌, IfOk, length, nat_le, pos, slice_index, slice_index_or};
ghost use Rattle.index_transform.specs.Values.{is_effective};
ghost use Rattle.transform_composition.specs.Reading.{depends_on};
ghost use Rattle.dim_changes.specs.Causes.{first_cause};
ghost use Rattle.dim_expressions.specs.Arrays.{array_at, array_cause, array_causes, array_dim, array_map, entries_cause, length_cause, short_map, sizes_along};

use cells::{Index, MOST_ENTRIES, Sizes};
use dim_changes::{Cause, dim_at, varies_along, with_cause};
use index_intervals::Interval;
use index_transform::{OutMap, Transform, is_effective};
use std::alloc::{AllocError, Global};

fn are_effective(dim: &Interval, entries: &[i64]) -> bool
    ensures { result ≡ list_all (is_effective dim.now) entries.now }
{
    entries.iter().all(|x| is_effective(dim, *x))
}

// Why a list isn't one of the dimension's indices.
fn entries_cause(dim: &Interval, entries: &[i64]) -> Option<Cause>
    ensures { result ≡ entries_cause dim.now entries.now }
{
    if are_effective(dim, entries) {
        return None;
    }
    let limits = dim.effective();
    Some(Cause::OutOfRange {
        lo: limits.lo,
        hi: limits.hi,
    })
}

// Whether the number of the map depends on the index along the dimension.
fn depends_on(map: &OutMap, dim: usize) -> bool
    ensures { result ≡ depends_on dim map.now }
{
    match map {
        OutMap::Constant { .. } => false,
        OutMap::Strided { dim: from, .. } => *from as usize == dim,
        OutMap::Indexed { sizes, .. } => varies_along(sizes.items(), dim),
    }
}

fn is_used(maps: &[OutMap], dim: usize) -> bool
    ensures { result ≡ list_any (depends_on dim) maps.now }
{
    maps.iter().any(|map| depends_on(map, dim))
}

fn is_short(entries: &[i64]) -> bool
    ensures { result ≡ nat_le (length entries.now) 4194304 }
{
    entries.len() as u64 <= MOST_ENTRIES
}

// Why a list makes no index array.
fn length_cause(maps: &[OutMap], dim: usize, entries: &[i64]) -> Option<Cause>
    ensures { result ≡ length_cause maps.now dim entries.now }
{
    if is_short(entries) || !is_used(maps, dim) {
        None
    } else {
        Some(Cause::TooLarge)
    }
}

// What is against the list at a spot of the selection.
fn array_cause(u: &Transform, selected: &[usize], arrays: &[Index], spot: usize) -> Option<Cause>
    requires known { All (λ dim. dim < length u.now.domain.dims) selected.now }
    requires same { length arrays.now ≡ length selected.now }
    requires within { spot < length selected.now }
    ensures { result ≡ array_cause u.now arrays.now (spot, slice_index selected.now spot) }
{
    let dim = selected[spot];
    let entries = list_at(arrays, spot);
    let outside = entries_cause(dim_at(u.domain().dims.items(), dim), entries);
    with_cause(outside, length_cause(u.maps(), dim, entries))
}

fn list_at(arrays: &[Index], spot: usize) -> &[i64]
    requires { spot < length arrays.now }
    ensures { result.now ≡ array_at arrays.now spot }
{
    arrays[spot].items()
}

// Why lists aren't indices of the selected dimensions, or make no index arrays.
pub(crate) fn array_causes(u: &Transform, selected: &[usize], arrays: &[Index]) -> Option<Cause>
    requires known { All (λ dim. dim < length u.now.domain.dims) selected.now }
    requires same { length arrays.now ≡ length selected.now }
    ensures { result ≡ first_cause (array_causes u.now arrays.now selected.now) }
{
    let mut cause = None;
    let mut k = selected.len();
    while k > 0 {
        k -= 1;
        cause = with_cause(array_cause(u, selected, arrays, k), cause);
    }
    cause
}

pub(crate) fn array_dim(entries: &[i64]) -> Interval
    ensures { result ≡ array_dim entries.now }
{
    Interval {
        lo: 0,
        hi: entries.len() as i64 - 1,
        lo_implicit: false,
        hi_implicit: false,
    }
}

// Sizes that are 1 but along one dimension.
#[tactic(auto, using(dim_changes::proofs::Laws::listed_more))]
fn sizes_along(alloc: Global, rank: usize, dim: usize, len: usize) -> Result<Sizes, AllocError>
    ensures { IfOk result (λ sizes. sizes ≡ sizes_along rank dim len) }
{
    let mut sizes = Vec::with_capacity(alloc, rank)?;
    for d in 0..rank {
        sizes.push(if d == dim { len as u64 } else { 1 })?;
    }
    Ok(Sizes::wrap(sizes))
}

// An index array along one dimension.
fn array_map(alloc: Global, rank: usize, dim: usize, entries: &[i64]) -> Result<OutMap, AllocError>
    ensures { IfOk result (λ m. m ≡ array_map rank dim entries.now) }
{
    Ok(OutMap::Indexed {
        offset: 0,
        stride: 1,
        sizes: sizes_along(alloc, rank, dim, entries.len())?,
        entries: Index::wrap(Vec::from_slice(alloc, entries)?),
    })
}

fn first_index(entries: &[i64]) -> i64
    ensures { result ≡ slice_index_or entries.now 0 (pos 0) }
{
    match entries.first() {
        Some(x) => *x,
        None => 0,
    }
}

// The map that is composed: of a list that is too long, which no output needs, the first index stands for all.
pub(crate) fn short_map(
    alloc: Global,
    rank: usize,
    dim: usize,
    entries: &[i64],
) -> Result<OutMap, AllocError>
    ensures { IfOk result (λ m. m ≡ short_map rank dim entries.now) }
{
    if is_short(entries) {
        array_map(alloc, rank, dim, entries)
    } else {
        Ok(OutMap::Constant {
            offset: first_index(entries),
        })
    }
}
