// Where in the C order of the downsampled domain each cell comes.
ghost use Rattle.std.specs.Prelude.{◌≡◌, ◌<◌, ◌*◌, ◌+◌, ◌++◌, ◌+ℤ◌, pos, IsTrue, IfOk, length, map, Some, [], ◌∷◌};
ghost use Rattle.std.specs.List.{AllByRecursion, list_all, flat_map};
ghost use Rattle.index_intervals.specs.Members.{is_finite, size_of};
ghost use Rattle.index_transform.specs.Cells.{cells_of, members_of};
ghost use Rattle.downsample_view.specs.Groups.{IsFactor};
ghost use Rattle.downsample_view.specs.Places.{has_group, within, offset_from, offset_of, new_count, place_of, joined_place};

use crate::method::Method;
use crate::sizes::{new_size, origin_of, quotient_down};
use index_intervals::Interval;
use std::alloc::{AllocError, Global};

// How many cells the downsampled domain has, and for each cell of the domain the place of its group, if it comes into one.
pub(crate) fn places(
    alloc: Global,
    dims: &[Interval],
    factors: &[u64],
    method: Method,
) -> Result<(usize, Vec<Option<usize>>), AllocError>
    requires finite { IsTrue (list_all is_finite dims.now) }
    requires ranks { length factors.now ≡ length dims.now }
    requires factors { AllByRecursion IsFactor factors.now }
    ensures count { IfOk result (λ p. p.0 ≡ new_count method factors.now dims.now) }
    ensures list { IfOk result (λ p. p.1.items ≡ map (place_of method factors.now dims.now) (cells_of dims.now)) }
{
    let mut count = 1usize;
    let mut list = one_place(alloc)?;
    let mut k = dims.len();
    while k > 0 {
        k -= 1;
        let dim = &dims[k];
        let size = new_size(method, factors[k], dim);
        list = extended(alloc, dim, factors[k], method, count, list)?;
        count = product(size, count)?;
    }
    Ok((count, list))
}

fn one_place(alloc: Global) -> Result<Vec<Option<usize>>, AllocError>
    ensures { IfOk result (λ list. list.items ≡ Some 0 ∷ []) }
{
    let mut list = Vec::with_capacity(alloc, 1)?;
    list.push(Some(0))?;
    Ok(list)
}

fn product(size: u64, count: usize) -> Result<usize, AllocError>
    ensures { IfOk result (λ n. n ≡ size * count) }
{
    match (size as usize).checked_mul(count) {
        Some(n) => Ok(n),
        None => Err(AllocError),
    }
}

// The places with one dimension more in front.
fn extended(
    alloc: Global,
    dim: &Interval,
    factor: u64,
    method: Method,
    count: usize,
    rest: Vec<Option<usize>>,
) -> Result<Vec<Option<usize>>, AllocError>
    requires finite { IsTrue (is_finite dim.now) }
    requires factor { IsFactor factor }
    ensures { IfOk result (λ all. all.items ≡ flat_map (λ x.
        map (joined_place count (offset_of method factor dim.now x)) rest.items) (members_of dim.now)) }
{
    let offsets = offsets(alloc, dim, factor, method)?;
    rows(alloc, &offsets, count, &rest)
}

// How far from the new lower bound the group of each index of a dimension lies.
fn offsets(
    alloc: Global,
    dim: &Interval,
    factor: u64,
    method: Method,
) -> Result<Vec<Option<usize>>, AllocError>
    requires finite { IsTrue (is_finite dim.now) }
    requires factor { IsFactor factor }
    ensures { IfOk result (λ all. all.items ≡ map (offset_of method factor dim.now) (members_of dim.now)) }
{
    let origin = origin_of(method, factor, dim);
    let size = new_size(method, factor, dim);
    let mut all = Vec::new(alloc);
    for k in 0..dim.size() {
        all.push(offset_from(method, factor, origin, size, nth(dim, k)))?;
    }
    Ok(all)
}

// The index that is so far from the lower bound.
fn nth(dim: &Interval, k: u64) -> i64
    requires finite { IsTrue (is_finite dim.now) }
    requires inside { k < size_of dim.now }
    ensures { result ≡ dim.now.lo +ℤ pos k }
{
    dim.lo + k as i64
}

fn offset_from(method: Method, factor: u64, origin: i64, size: u64, x: i64) -> Option<usize>
    requires { IsFactor factor }
    ensures { result ≡ offset_from method factor origin size x }
{
    let group = quotient_down(x, factor);
    if has_group(method, factor, x, group) {
        within(i128::from(group) - i128::from(origin), size)
    } else {
        None
    }
}

fn has_group(method: Method, factor: u64, x: i64, group: i64) -> bool
    requires { IsFactor factor }
    ensures { result ≡ has_group method factor x group }
{
    match method {
        Method::Stride => i128::from(x) == i128::from(group) * i128::from(factor),
        _ => true,
    }
}

fn within(difference: i128, size: u64) -> Option<usize>
    ensures { result ≡ within difference size }
{
    if 0 <= difference && difference < i128::from(size) {
        Some(difference as usize)
    } else {
        None
    }
}

// The places of rows, each at its offset.
fn rows(
    alloc: Global,
    offsets: &[Option<usize>],
    count: usize,
    rest: &[Option<usize>],
) -> Result<Vec<Option<usize>>, AllocError>
    ensures { IfOk result (λ all. all.items ≡ flat_map (λ offset.
        map (joined_place count offset) rest.now) offsets.now) }
{
    let mut all = Vec::new(alloc);
    for offset in offsets {
        all = with_row(all, *offset, count, rest)?;
    }
    Ok(all)
}

// One row of places more.
fn with_row(
    all: Vec<Option<usize>>,
    offset: Option<usize>,
    count: usize,
    rest: &[Option<usize>],
) -> Result<Vec<Option<usize>>, AllocError>
    ensures { IfOk result (λ more. more.items ≡ all.items ++ map (joined_place count offset) rest.now) }
{
    let mut all = all;
    for place in rest {
        all.push(joined_place(count, offset, *place)?)?;
    }
    Ok(all)
}

fn joined_place(
    count: usize,
    row: Option<usize>,
    place: Option<usize>,
) -> Result<Option<usize>, AllocError>
    ensures { IfOk result (λ o. o ≡ joined_place count row place) }
{
    match row {
        Some(row) => match place {
            Some(place) => Ok(Some(sum_of(count, row, place)?)),
            None => Ok(None),
        },
        None => Ok(None),
    }
}

fn sum_of(count: usize, row: usize, place: usize) -> Result<usize, AllocError>
    ensures { IfOk result (λ n. n ≡ row * count + place) }
{
    let Some(first) = row.checked_mul(count) else {
        return Err(AllocError);
    };
    match first.checked_add(place) {
        Some(n) => Ok(n),
        None => Err(AllocError),
    }
}
