// The bounds of a downsampled domain.
ghost use Rattle.std.specs.Prelude.{◌≡◌, ◌≤◌, pos, ◌+ℤ◌, ◌-ℤ◌, unsigned_abs, ◌≤ℤ◌, negsuc, IsTrue, IfOk, length, map};
ghost use Rattle.std.specs.List.{AllByRecursion, list_all};
ghost use Rattle.index_intervals.specs.Members.{is_finite, size_of};
ghost use Rattle.index_intervals.specs.Stride.{quotient_down, quotient_up};
ghost use Rattle.downsample_view.specs.Groups.{IsFactor, origin_of, new_size, new_dims};

use crate::method::Method;
use index_intervals::Interval;
use std::alloc::{AllocError, Global};

// The new lower bounds.
pub(crate) fn origins(
    alloc: Global,
    dims: &[Interval],
    factors: &[u64],
    method: Method,
) -> Result<Vec<i64>, AllocError>
    requires finite { IsTrue (list_all is_finite dims.now) }
    requires ranks { length factors.now ≡ length dims.now }
    requires factors { AllByRecursion IsFactor factors.now }
    ensures { IfOk result (λ all. all.items ≡ map (λ dim. dim.lo) (new_dims method factors.now dims.now)) }
{
    let mut all = Vec::with_capacity(alloc, dims.len())?;
    for k in 0..dims.len() {
        all.push(origin_of(method, factors[k], &dims[k]))?;
    }
    Ok(all)
}

// The new sizes.
pub(crate) fn sizes(
    alloc: Global,
    dims: &[Interval],
    factors: &[u64],
    method: Method,
) -> Result<Vec<u64>, AllocError>
    requires finite { IsTrue (list_all is_finite dims.now) }
    requires ranks { length factors.now ≡ length dims.now }
    requires factors { AllByRecursion IsFactor factors.now }
    ensures { IfOk result (λ all. all.items ≡ map size_of (new_dims method factors.now dims.now)) }
{
    let mut all = Vec::with_capacity(alloc, dims.len())?;
    for k in 0..dims.len() {
        all.push(new_size(method, factors[k], &dims[k]))?;
    }
    Ok(all)
}

// The new lower bound of a dimension.
pub(crate) fn origin_of(method: Method, factor: u64, dim: &Interval) -> i64
    requires finite { IsTrue (is_finite dim.now) }
    requires factor { IsFactor factor }
    ensures { result ≡ origin_of method factor dim.now }
{
    match method {
        Method::Stride => quotient_up(dim.lo, factor),
        _ => quotient_down(dim.lo, factor),
    }
}

// The new size of a dimension.
pub(crate) fn new_size(method: Method, factor: u64, dim: &Interval) -> u64
    requires finite { IsTrue (is_finite dim.now) }
    requires factor { IsFactor factor }
    ensures { result ≡ new_size method factor dim.now }
{
    if dim.hi < dim.lo {
        return 0;
    }
    gap(end_of(factor, dim), origin_of(method, factor, dim))
}

// The index behind the last one, by the factor, rounded up.
fn end_of(factor: u64, dim: &Interval) -> i64
    requires finite { IsTrue (is_finite dim.now) }
    requires factor { IsFactor factor }
    ensures { result ≡ quotient_up (dim.now.hi +ℤ pos 1) (pos factor) }
{
    quotient_up(dim.hi + 1, factor)
}

fn gap(a: i64, b: i64) -> u64
    ensures { result ≡ unsigned_abs (a -ℤ b) }
{
    a.abs_diff(b)
}

pub(crate) fn quotient_down(x: i64, factor: u64) -> i64
    requires factor { IsFactor factor }
    ensures { result ≡ quotient_down x (pos factor) }
{
    x.div_euclid(factor as i64)
}

fn quotient_up(x: i64, factor: u64) -> i64
    requires above { negsuc 4611686018427387903 ≤ℤ x }
    requires below { x ≤ℤ pos 4611686018427387904 }
    requires factor { IsFactor factor }
    ensures { result ≡ quotient_up x (pos factor) }
{
    -(-x).div_euclid(factor as i64)
}
