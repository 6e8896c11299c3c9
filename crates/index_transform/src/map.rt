ghost use Rattle.std.specs.Prelude.{◌≡◌, ◌<◌, length, not, IfSome};
ghost use Rattle.std.specs.List.{zip, list_all, position_from};
ghost use Rattle.index_intervals.specs.Bounds.{is_index};
ghost use Rattle.index_transform.specs.Maps.{size_of, is_fixed, fits_dim, fits, are_entries, is_map, has_ranks};

use crate::domain::Domain;
use cells::{Index, LARGEST_RANK, MOST_ENTRIES, Sizes, count_cells};
use index_intervals::{INFINITY, Interval, is_index};

/// How one output number follows from an index vector.
///
/// TensorStore, "Index space", "Index transform".
#[derive(Debug, PartialEq, Eq, Drop)]
pub enum OutMap {
    /// The number `offset`.
    Constant {
        offset: i64,
    },
    /// `offset + stride * x[dim]`.
    Strided {
        offset: i64,
        stride: i64,
        dim: u32,
    },
    /// `offset + stride * A[x]`. The array has its entries in C order, and along each dimension the size 1 or the
    /// dimension's size; where the size is 1 the entry doesn't depend on that index.
    Indexed {
        offset: i64,
        stride: i64,
        sizes: Sizes,
        entries: Index,
    },
}

impl OutMap {
    ghost use Rattle.index_transform.specs.Maps.{is_map, is_plain, plain_map};

    // Whether the map goes from these dimensions.
    pub(crate) fn is_from(&self, dims: &[Interval]) -> bool
        ensures { result ≡ is_map dims.now self.now }
    {
        match self {
            OutMap::Constant { .. } => true,
            OutMap::Strided { dim, .. } => (*dim as usize) < dims.len(),
            OutMap::Indexed { sizes, entries, .. } => {
                fits(dims, sizes.items()) && are_entries(sizes.items(), entries.items())
            }
        }
    }

    // The map with a stride of 0 made a constant.
    pub(crate) fn plain(self) -> OutMap
        ensures value { result ≡ plain_map self }
    {
        match self {
            OutMap::Strided {
                offset,
                stride: 0,
                dim: _,
            } => OutMap::Constant { offset },
            OutMap::Indexed {
                offset,
                stride: 0,
                sizes: _,
                entries: _,
            } => OutMap::Constant { offset },
            map => map,
        }
    }
}

/// Whether an index array may have these sizes: as many as there are dimensions, each 1 or that of its dimension, whose bounds
/// are then explicit and finite.
pub fn fits(dims: &[Interval], sizes: &[u64]) -> bool
    ensures { result ≡ fits dims.now sizes.now }
{
    dims.len() == sizes.len() && each_fits(dims, sizes)
}

fn each_fits(dims: &[Interval], sizes: &[u64]) -> bool
    ensures { result ≡ list_all (λ p. fits_dim p.0 p.1) (zip dims.now sizes.now) }
{
    dims.iter()
        .zip(sizes.iter())
        .all(|(dim, size)| fits_dim(dim, *size))
}

fn fits_dim(dim: &Interval, size: u64) -> bool
    ensures { result ≡ fits_dim dim.now size }
{
    size == 1 || is_fixed(dim) && size == size_of(dim)
}

// Whether bounds are explicit and finite.
pub(crate) fn is_fixed(dim: &Interval) -> bool
    ensures { result ≡ is_fixed dim.now }
{
    !dim.lo_implicit && !dim.hi_implicit && dim.lo != -INFINITY && dim.hi != INFINITY
}

/// The number of indices of an interval, infinite bounds counted as the numbers that stand for them.
pub fn size_of(dim: &Interval) -> u64
    ensures { result ≡ size_of dim.now }
{
    (dim.hi + 1 - dim.lo) as u64
}

// Whether there is one finite index per cell of the sizes, and not too many.
fn are_entries(sizes: &[u64], entries: &[i64]) -> bool
    ensures { result ≡ are_entries sizes.now entries.now }
{
    match count_cells(sizes, MOST_ENTRIES) {
        Some(count) => count == entries.len() as u64 && are_indices(entries),
        None => false,
    }
}

fn are_indices(numbers: &[i64]) -> bool
    ensures { result ≡ list_all is_index numbers.now }
{
    numbers.iter().all(|x| is_index((*x).into()))
}

// Whether there is one label per dimension, and not too many dimensions or outputs.
pub(crate) fn ranks_fit(domain: &Domain, maps: &[OutMap]) -> bool
    ensures { result ≡ has_ranks domain.now maps.now }
{
    let rank = domain.dims.items().len();
    rank <= LARGEST_RANK && domain.labels.items().len() == rank && maps.len() <= LARGEST_RANK
}

// The first output whose map doesn't go from the dimensions.
pub(crate) fn first_bad_map(domain: &Domain, maps: &[OutMap]) -> Option<usize>
    ensures value { result ≡ position_from (λ m. not (is_map domain.now.dims m)) 0 maps.now }
    ensures bound { IfSome result (λ output. output < length maps.now) }
{
    let dims = domain.dims.items();
    maps.iter().position(|map| !map.is_from(dims))
}
