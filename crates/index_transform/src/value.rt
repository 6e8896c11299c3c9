ghost use Rattle.std.specs.Prelude.{◌≡◌, ◌≢◌, ◌<◌, ◌≤◌, ◌+ℤ◌, ◌*ℤ◌, IsTrue, IfOk, IfErr, IfSome, length, map};
ghost use Rattle.std.specs.List.{list_all};
ghost use Rattle.cells.specs.Places.{cell_count};
ghost use Rattle.index_transform.specs.Values.{entry_index, entry_place, reaches_dim, reaches, has_value, map_value, is_effective, first_outside, is_word, numbers_of};

use crate::error::AtError;
use crate::map::OutMap;
use crate::transform::Transform;
use index_intervals::{Interval, is_index};
use std::alloc::Global;

impl OutMap {
    /// The output number at an index vector at which the map has one.
    pub fn value(&self, dims: &[Interval], index: &[i64]) -> i128
        requires { IsTrue (has_value dims.now index.now self.now) }
        ensures { result ≡ map_value dims.now index.now self.now }
    {
        match self {
            OutMap::Constant { offset } => i128::from(*offset),
            OutMap::Strided {
                offset,
                stride,
                dim,
            } => scaled(*offset, *stride, index[*dim as usize]),
            OutMap::Indexed {
                offset,
                stride,
                sizes,
                entries,
            } => {
                let place = entry_place(dims, sizes.items(), index);
                scaled(*offset, *stride, entries.items()[place])
            }
        }
    }
}

impl Transform {
    ghost use Rattle.index_transform.specs.declared.error.AtError.{AtError};
    ghost use Rattle.index_transform.specs.Values.{at_answer, value_at};

    /// The output numbers at an index vector of the domain's rank.
    ///
    /// # Errors
    ///
    /// The first that holds:
    /// - `OutOfRange` with the first dimension whose effective interval lacks its index.
    /// - `Overflow` with the first output whose number is no finite index.
    /// - `Memory`, which may also come before an overflow is seen.
    pub fn at(&self, alloc: Global, index: &[i64]) -> Result<Vec<i64>, AtError>
        requires { length index.now ≡ length self.now.domain.dims }
        ensures ok { IfOk result (λ numbers. at_answer self.now index.now ≡ Ok numbers.items) }
        ensures err { IfErr result (λ e. e ≢ AtError.Memory → at_answer self.now index.now ≡ Err e) }
    {
        let dims = self.domain().dims.items();
        if let Some(dim) = first_outside(dims, index) {
            return Err(AtError::OutOfRange { dim: dim as u32 });
        }
        numbers_at(alloc, dims, self.maps(), index)
    }

    /// Writes the output numbers at an index vector. Nothing is checked, and no memory is taken.
    ///
    /// Each map has a number there, and it fits 64 bits.
    pub fn value_into(&self, index: &[i64], out: &mut [i64])
        requires room { length out.old ≡ length self.now.maps }
        requires known { IsTrue (list_all (has_value self.now.domain.dims index.now) self.now.maps) }
        requires fits { IsTrue (list_all is_word (value_at self.now index.now)) }
        ensures { out.new ≡ value_at self.now index.now }
    {
        values_into(self.domain().dims.items(), self.maps(), index, out)
    }
}

fn values_into(dims: &[Interval], maps: &[OutMap], index: &[i64], out: &mut [i64])
    requires room { length out.old ≡ length maps.now }
    requires known { IsTrue (list_all (has_value dims.now index.now) maps.now) }
    requires fits { IsTrue (list_all is_word (map (map_value dims.now index.now) maps.now)) }
    ensures { out.new ≡ map (map_value dims.now index.now) maps.now }
{
    for (j, map) in maps.iter().enumerate() {
        let number = map.value(dims, index);
        out[j] = number as i64;
    }
}

// The output numbers at an index vector that the domain has.
fn numbers_at(
    alloc: Global,
    dims: &[Interval],
    maps: &[OutMap],
    index: &[i64],
) -> Result<Vec<i64>, AtError>
    requires rank { length maps.now ≤ 32 }
    requires inside { IsTrue (list_all (has_value dims.now index.now) maps.now) }
    ensures ok { IfOk result (λ numbers. numbers_of (map (map_value dims.now index.now) maps.now) ≡ Ok numbers.items) }
    ensures err { IfErr result (λ e. e ≢ AtError.Memory
        → numbers_of (map (map_value dims.now index.now) maps.now) ≡ Err e) }
{
    let mut numbers = Vec::with_capacity(alloc, maps.len())?;
    for (output, map) in maps.iter().enumerate() {
        let number = map.value(dims, index);
        if !is_index(number) {
            return Err(AtError::Overflow {
                output: output as u32,
            });
        }
        if numbers.push(number as i64).is_err() {
            return Err(AtError::Memory);
        }
    }
    Ok(numbers)
}

// The first dimension whose effective interval lacks its index.
fn first_outside(dims: &[Interval], index: &[i64]) -> Option<usize>
    ensures value { result ≡ first_outside dims.now index.now }
    ensures bound { IfSome result (λ dim. dim < length dims.now) }
{
    dims.iter()
        .zip(index.iter())
        .position(|(dim, x)| !is_effective(dim, *x))
}

/// Whether the index is an effective member of the interval.
pub fn is_effective(dim: &Interval, x: i64) -> bool
    ensures { result ≡ is_effective dim.now x }
{
    is_index(x.into()) && (dim.lo_implicit || dim.lo <= x) && (dim.hi_implicit || x <= dim.hi)
}

/// A number times a stride, and an offset.
pub fn scaled(offset: i64, stride: i64, x: i64) -> i128
    ensures { result ≡ offset +ℤ stride *ℤ x }
{
    i128::from(offset) + i128::from(stride) * i128::from(x)
}

// The place of the entry that an index array of these sizes has at an index vector.
pub(crate) fn entry_place(dims: &[Interval], sizes: &[u64], index: &[i64]) -> usize
    requires reached { IsTrue (reaches dims.now sizes.now index.now) }
    requires small { cell_count sizes.now ≤ 4194304 }
    ensures value { result ≡ entry_place dims.now sizes.now index.now }
    ensures below { result < cell_count sizes.now }
{
    let mut place = 0;
    for (k, size) in sizes.iter().enumerate() {
        place = place * *size as usize + entry_index(&dims[k], *size, index[k]);
    }
    place
}

fn entry_index(dim: &Interval, size: u64, x: i64) -> usize
    requires { IsTrue (reaches_dim dim.now size x) }
    ensures value { result ≡ entry_index dim.now size x }
    ensures below { result < size }
{
    if size == 1 {
        0
    } else {
        x.abs_diff(dim.lo) as usize
    }
}
