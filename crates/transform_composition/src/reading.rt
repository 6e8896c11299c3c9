ghost use Rattle.std.specs.Prelude.{◌≡◌, ◌≤◌, ◌<◌, ◌==◌, ◌||◌, not, ℤ, List, length, map, IsTrue, IfOk, slice_index_or};
ghost use Rattle.std.specs.List.{list_all};
ghost use Rattle.index_transform.specs.Places.{cell_count};
ghost use Rattle.index_transform.specs.Maps.{size_of, are_entries};
ghost use Rattle.index_transform.specs.Values.{reaches_dim, entry_index, entry_place, has_value, map_value};
ghost use Rattle.index_transform.specs.Cells.{is_finite, cells_of};
ghost use Rattle.transform_composition.specs.Reading.{has_array_along, depends_on, is_read_along, point, read_along, read_dims, entry_over, can_read};
ghost use Rattle.index_transform.specs.Bounds.{is_ordered};
ghost use Rattle.index_transform.specs.Walks.{IsCell};

use index_transform::{Interval, OutMap, Walk, lower_bounds, size_of};
use std::alloc::{AllocError, Global};

// Whether the map has an index array that depends on the dimension.
pub(crate) fn has_array_along(map: &OutMap, dim: u32) -> bool
    ensures { result ≡ has_array_along dim map.now }
{
    match map {
        OutMap::Indexed { sizes, .. } => varies_along(sizes.items(), dim),
        _ => false,
    }
}

// Whether the number depends on the index along the dimension.
fn depends_on(map: &OutMap, dim: u32) -> bool
    ensures { result ≡ depends_on dim map.now }
{
    match map {
        OutMap::Constant { .. } => false,
        OutMap::Strided { dim: from, .. } => *from == dim,
        OutMap::Indexed { sizes, .. } => varies_along(sizes.items(), dim),
    }
}

// Whether the size along the dimension isn't 1.
fn varies_along(sizes: &[u64], dim: u32) -> bool
    ensures { result ≡ not (slice_index_or sizes.now dim 1 == 1) }
{
    match sizes.get(dim as usize) {
        Some(size) => *size != 1,
        None => false,
    }
}

// Whether an array of these sizes is read along the dimension.
fn is_read_along(sizes: &[u64], inners: &[OutMap], dim: u32) -> bool
    ensures { result ≡ is_read_along sizes.now inners.now dim }
{
    sizes
        .iter()
        .zip(inners.iter())
        .any(|(size, map)| *size != 1 && depends_on(map, dim))
}

fn point() -> Interval
    ensures { result ≡ point }
{
    Interval {
        lo: 0,
        hi: 0,
        lo_implicit: false,
        hi_implicit: false,
    }
}

// The dimensions, but only a point of those along which the array isn't read.
pub(crate) fn read_dims(
    alloc: Global,
    dims: &[Interval],
    sizes: &[u64],
    inners: &[OutMap],
) -> Result<Vec<Interval>, AllocError>
    requires { length dims.now ≤ 32 }
    ensures { IfOk result (λ read. read.items ≡ read_dims 0 dims.now sizes.now inners.now) }
{
    let mut read = Vec::with_capacity(alloc, dims.len())?;
    for (k, dim) in dims.iter().enumerate() {
        read.push(read_along(dim, sizes, inners, k as u32))?;
    }
    Ok(read)
}

fn read_along(dim: &Interval, sizes: &[u64], inners: &[OutMap], k: u32) -> Interval
    ensures { result ≡ read_along k sizes.now inners.now dim.now }
{
    if is_read_along(sizes, inners, k) {
        *dim
    } else {
        point()
    }
}

pub(crate) fn sizes_of(alloc: Global, dims: &[Interval]) -> Result<Vec<u64>, AllocError>
    ensures { IfOk result (λ sizes. sizes.items ≡ map size_of dims.now) }
{
    dims.iter().map(|dim| size_of(dim)).collect(alloc)
}

// The index along a dimension of an array at which a map's value has it read.
fn index_over(outer: &Interval, size: u64, dims: &[Interval], map: &OutMap, cell: &[i64]) -> usize
    requires known { IsTrue (size == 1 || has_value dims.now cell.now map.now) }
    requires reached { IsTrue (reaches_dim outer.now size (map_value dims.now cell.now map.now)) }
    ensures value { result ≡ entry_index outer.now size (map_value dims.now cell.now map.now) }
    ensures below { result < size }
{
    if size == 1 {
        return 0;
    }
    (map.value(dims, cell) - i128::from(outer.lo)) as usize
}

// The place of the entry that an array has at the values of the maps.
fn place_over(
    outers: &[Interval],
    sizes: &[u64],
    dims: &[Interval],
    maps: &[OutMap],
    cell: &[i64],
) -> usize
    requires readable { IsTrue (can_read outers.now sizes.now dims.now maps.now cell.now) }
    requires small { cell_count sizes.now ≤ 4194304 }
    ensures value { result ≡ entry_place outers.now sizes.now (map (map_value dims.now cell.now) maps.now) }
    ensures below { result < cell_count sizes.now }
{
    let mut place = 0;
    for (j, size) in sizes.iter().enumerate() {
        place = place * *size as usize + index_over(&outers[j], *size, dims, &maps[j], cell);
    }
    place
}

// The entries of an array at the values of the maps, cell by cell of the dimensions along which it is read.
pub(crate) fn read_entries(
    alloc: Global,
    read: &[Interval],
    outers: &[Interval],
    sizes: &[u64],
    entries: &[i64],
    dims: &[Interval],
    maps: &[OutMap],
) -> Result<Vec<i64>, AllocError>
    requires finite { IsTrue (list_all is_finite read.now) }
    requires ordered { IsTrue (list_all is_ordered read.now) }
    requires array { IsTrue (are_entries sizes.now entries.now) }
    requires readable { (cell : List ℤ) → IsCell read.now cell
        → IsTrue (can_read outers.now sizes.now dims.now maps.now cell) }
    ensures { IfOk result (λ gathered. gathered.items
        ≡ map (entry_over outers.now sizes.now entries.now dims.now maps.now) (cells_of read.now)) }
{
    let mut walk = Walk::over(alloc, read)?;
    let mut index = lower_bounds(alloc, read)?;
    let cell = index.as_mut_slice();
    let mut gathered = Vec::new(alloc);
    while walk.advance(cell) {
        let place = place_over(outers, sizes, dims, maps, cell);
        gathered.push(entries[place])?;
    }
    Ok(gathered)
}
